// What any reader of text shares: bytes split at a separator, a number in decimal, numbers parted by one space.
#![tactic(auto)]

pub mod number;
pub mod spaced;
pub mod split;
