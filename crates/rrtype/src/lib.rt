// R: RR types, `TYPE` and a number.
#![tactic(auto)]

pub mod print;
pub mod read;
