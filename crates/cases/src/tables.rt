// Tables with what the program prints for them.
use std::io;

fn run(rt: &impl Print, title: &[u8], input: &[u8]) -> io::Result<()> {
    rt.write_all(title)?;
    runner::run(rt, input);
    Ok(())
}

pub fn sizes(rt: &impl Print) -> io::Result<()> {
    run(rt, b"(1,1)=200\n", &[1u8, 1, 200, 0])?;
    run(rt, b"(40,40)=1640\n", &[40u8, 40, 104, 6])?;
    run(rt, b"(1,1)=202\n", &[1u8, 1, 202, 0])?;
    run(rt, b"(40,40)=1600\n", &[40u8, 40, 64, 6])
}

pub fn small(rt: &impl Print) -> io::Result<()> {
    run(rt, b"(1,1)=4\n", &[1u8, 1, 4, 0])?;
    run(rt, b"(1,1)=6\n", &[1u8, 1, 6, 0])?;
    run(rt, b"(2,2)=12\n", &[2u8, 2, 12, 0])?;
    run(rt, b"(1,2)=4 (2,2)=2\n", &[1u8, 2, 4, 0, 2, 2, 2, 0])?;
    run(rt, b"(3,3)=18\n", &[3u8, 3, 18, 0])
}

// Two odd counts in two blocks: the first and the last of 17 records (2,2).
pub fn sum_over_blocks(rt: &impl Print) -> io::Result<()> {
    let mut records = [[2u8, 2, 0, 0]; 17];
    records[0][2] = 3;
    records[16][2] = 5;
    run(
        rt,
        b"(2,2)=3 and 5: even only as a sum\n",
        records.as_flattened(),
    )
}

pub fn inputs(rt: &impl Print) -> io::Result<()> {
    run(rt, b"no input\n", &[])?;
    run(rt, b"three bytes\n", &[1u8, 1, 2])?;
    run(rt, b"k above l\n", &[1u8, 1, 2, 0, 3, 2, 1, 0])
}
