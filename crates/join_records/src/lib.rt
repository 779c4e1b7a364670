// The record of a join (document 02, P2): 8 bytes, v and w, then its switches in the order made, unused bytes 255.
#![tactic(auto)]

ghost use Rattle.std.specs.Prelude.{◌≡◌, [], ◌∷◌, ◌+◌, ◌≤◌, ◌<◌, length};
ghost use Rattle.std.proofs.lemmas.List.Edits.{sets};
ghost use Rattle.answer.specs.Switches.{first_switch, second_switch};
ghost use Rattle.join_records.specs.Record.{join_record_size, join_record};
ghost use Rattle.join_records.specs.Inner.Bytes.{InBytes};

use answer::switches::{Switch, Switches, first_switch, second_switch};

pub const JOIN_RECORD_BYTES: usize = 8;

// The three bytes of a switch, from place at on.
fn put_switch(output: &mut [u8], at: usize, x: Switch)
    requires { (at + 3 ≤ length output.old) × InBytes x }
    ensures { output.new ≡ sets output.old at (x.a ∷ x.b ∷ x.t ∷ []) }
{
    output[at] = x.a as u8;
    output[at + 1] = x.b as u8;
    output[at + 2] = x.t as u8;
}

// The record of a join, from place at on.
pub fn put_record(output: &mut [u8], at: usize, v: usize, w: usize, s: Switches)
    requires { (at + join_record_size ≤ length output.old) × (v < 256) × (w < 256) × InBytes (first_switch s) × InBytes (second_switch s) }
    ensures { output.new ≡ sets output.old at (join_record v w s) }
{
    output[at] = v as u8;
    output[at + 1] = w as u8;
    put_switch(output, at + 2, first_switch(s));
    put_switch(output, at + 5, second_switch(s));
}
