// Tests of drafts and searches: what drafts refuse, and what searches answer.
#![tactic(auto)]

#[cfg(test)]
mod drafts;
#[cfg(test)]
mod instalments;
#[cfg(test)]
mod refusals;
#[cfg(test)]
mod searches;
