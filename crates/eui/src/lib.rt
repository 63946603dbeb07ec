// EUI48 and EUI64: pairs of hex digits with hyphens between them.
#![tactic(auto)]

pub mod print;
pub mod read;
