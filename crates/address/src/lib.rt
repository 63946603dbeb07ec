// A, AA and AAAA: addresses, whose texts are parts with a mark between them.
#![tactic(auto)]

pub mod part;
pub mod print;
pub mod read;
