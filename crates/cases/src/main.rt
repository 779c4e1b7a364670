// The tables of document 01 that are not starred, its wrong turns, figures to check by hand, and blocks read back.
#![tactic(auto)]

mod read_back;
mod tables;

use std::io;

fn main(rt: HostRuntime) -> io::Result<()> {
    tables::sizes(&rt)?;
    tables::small(&rt)?;
    tables::sum_over_blocks(&rt)?;
    tables::inputs(&rt)?;
    read_back::parts(&rt)
}
