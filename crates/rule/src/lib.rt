// What a narrowing rule is, and two ways of piling rules.
#![tactic(auto)]

pub mod both;
pub mod narrowing;
pub mod standstill;
pub mod verdict;
pub mod windows;
