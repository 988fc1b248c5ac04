//! Runs the engine on the stores and validators that there are, and holds its answers to the rules.
//! Each test makes its store and validator itself: the memory that these are lent is the test's own.
#![tactic(auto)]

#[cfg(test)]
mod afternoons;
#[cfg(test)]
mod calls;
#[cfg(test)]
mod limits;
#[cfg(test)]
mod slips;
#[cfg(test)]
mod totals;
