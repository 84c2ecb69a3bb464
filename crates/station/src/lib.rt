// One station that takes one task at a time: its tasks, and the kernels that narrow their windows.
#![tactic(auto)]

pub mod edges;
pub mod kernel;
pub mod limits;
pub mod not_first;
pub mod order;
pub mod pairs;
pub mod task;
