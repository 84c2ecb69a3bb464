// The search: decisions and their path, the choice of the job to split, and the promise that the laws of a rule alone give.
#![tactic(auto)]

pub mod choosing;
pub mod deciding;
pub mod decision;
pub mod entered;
pub mod outcome;
pub mod path;
