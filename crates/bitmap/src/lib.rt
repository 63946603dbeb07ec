// R[L]: a list of RR types, which is a bitmap of windows on the wire.
#![tactic(auto)]

pub mod print;
pub mod read;
