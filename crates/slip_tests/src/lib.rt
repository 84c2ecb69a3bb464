// Tests of the slip reader: slips good and damaged, with what is told of them and what the sheet then holds.
#![tactic(auto)]

#[cfg(test)]
mod checks;
#[cfg(test)]
mod damaged;
#[cfg(test)]
mod good;
#[cfg(test)]
mod large;
