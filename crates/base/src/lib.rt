// B32, B64, X and X[C]: octets written as digits in a base.
#![tactic(auto)]

pub mod print;
pub mod read;
