// One octet of a name or a string, escaped if needed: written, and read from a token.
#![tactic(auto)]

pub mod print;
pub mod read;
