// The house pile, and the one call from a slip's bytes to a report in the hall's own words.
#![tactic(auto)]

pub mod pile;
pub mod planning;
