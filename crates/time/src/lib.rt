// T: seconds since 1970-01-01, as a moment in the Gregorian calendar.
#![tactic(auto)]

pub mod print;
pub mod read;
