// The slip reader: bytes to a sheet's jobs and links, or the first fault.
#![tactic(auto)]

pub mod fault;
mod field;
mod kind;
mod line;
pub mod reader;
