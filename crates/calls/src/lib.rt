// Any list of calls on a fresh draft and the searches it is closed into, and the promise over all of them.
#![tactic(auto)]

pub mod call;
pub mod carrying;
pub mod planning;
