//! Worked rows of what promises resolve to by their ids, which the program never asks.
#![tactic(auto)]

#[cfg(test)]
mod promises;
#[cfg(test)]
mod telling;
