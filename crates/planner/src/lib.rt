// The planner: a draft that is filled and closed, and the search of it that is advanced and reopened.
#![tactic(auto)]

pub mod advancing;
pub mod closing;
pub mod draft;
pub mod from_slip;
pub mod looking;
pub mod state;
