// The call for C: slip bytes, granted looks and a buffer for the starts.
#![tactic(auto)]

pub mod bytes;
pub mod call;
