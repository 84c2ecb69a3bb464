// From a slip's bytes and granted looks to a report, with any pile of rules.
#![tactic(auto)]

pub mod planning;
pub mod reported;
pub mod telling;
