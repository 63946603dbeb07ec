// Why a job is bad: the first line that breaks its form, and the words that say so.
#![tactic(auto)]

pub mod fault;
pub mod reason;
pub mod words;
