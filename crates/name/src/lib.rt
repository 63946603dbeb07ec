// N: domain names.
#![tactic(auto)]

pub mod print;
pub mod read;
