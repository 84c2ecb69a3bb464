// The lines of the program plancalls: bytes to lines, a line to a call, an answer to a line.
#![tactic(auto)]

pub mod buffer;
pub mod command;
pub mod reply;
pub mod responding;
mod word;
