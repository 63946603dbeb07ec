// S, S[M] and S[X]: strings of octets.
#![tactic(auto)]

pub mod print;
pub mod read;
mod run;
