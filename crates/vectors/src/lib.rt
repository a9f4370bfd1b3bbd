//! Worked values that cross several crates, as tables of tests. It has no call of its own.
#![tactic(auto)]

#[cfg(test)]
mod cut;
#[cfg(test)]
mod reactions;
#[cfg(test)]
mod sizes;
