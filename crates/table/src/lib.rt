// The table of blocks of records: which records are good, and the joint degree matrix they add up to.
#![tactic(auto)]

pub mod cells;
pub mod class;
pub mod degree;
pub mod record;
