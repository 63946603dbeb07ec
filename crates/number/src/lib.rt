// I1, I2 and I4: integers of a fixed number of octets, in decimal or as a symbol of the field line.
#![tactic(auto)]

pub mod print;
pub mod read;
mod symbol;
