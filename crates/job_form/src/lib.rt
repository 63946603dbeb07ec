// The form of a job: the places of its sections, and its origin.
#![tactic(auto)]

pub mod form;
pub mod lines;
pub mod origin;
