// The switches of a join, as values (document 02, P2: its triples).
ghost use Rattle.std.specs.Prelude.{◌≡◌, ◌≤◌};
ghost use Rattle.answer.specs.Switches.{switch_count, no_switches, first_switch, second_switch};

// A neighbour switch: the edge a – t went, b – t came.
#[derive(Clone, Copy)]
pub struct Switch {
    pub a: usize,
    pub b: usize,
    pub t: usize,
}

// The switches of a join, in the order made. The case is their number, so no count can disagree with them.
#[derive(Clone, Copy)]
pub enum Switches {
    None,
    One(Switch),
    Two(Switch, Switch),
}

// Stands for a vertex of a switch that was not needed; no vertex has this number.
pub const UNUSED: usize = 255;

// How many there are.
pub fn switch_count(s: Switches) -> usize
    ensures { (result ≡ switch_count s) × (result ≤ 2) }
{
    match s {
        Switches::None => 0,
        Switches::One(_) => 1,
        Switches::Two(_, _) => 2,
    }
}

// What stands for a switch that was not needed.
fn no_switch() -> Switch
    ensures { result ≡ no_switches }
{
    Switch {
        a: UNUSED,
        b: UNUSED,
        t: UNUSED,
    }
}

// The first one made.
pub fn first_switch(s: Switches) -> Switch
    ensures { result ≡ first_switch s }
{
    match s {
        Switches::None => no_switch(),
        Switches::One(x) => x,
        Switches::Two(x, _) => x,
    }
}

// The second one made.
pub fn second_switch(s: Switches) -> Switch
    ensures { result ≡ second_switch s }
{
    match s {
        Switches::None => no_switch(),
        Switches::One(_) => no_switch(),
        Switches::Two(_, y) => y,
    }
}
