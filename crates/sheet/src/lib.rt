// The sheet: jobs and links in order of entry, their limits, and the refusals of every call.
#![tactic(auto)]

pub mod entering;
pub mod limits;
pub mod records;
pub mod refusal;
pub mod table;
