// The rules that a station takes one job at a time: Pairs, Edges and Not-first.
#![tactic(auto)]

pub mod board;
pub mod rules;
pub mod starts;
pub mod stations;
