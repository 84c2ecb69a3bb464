// Tests of planning a slip, from Rattle and by the call for C.
#![tactic(auto)]

#[cfg(test)]
mod c_call;
#[cfg(test)]
mod example;
#[cfg(test)]
mod plans;
