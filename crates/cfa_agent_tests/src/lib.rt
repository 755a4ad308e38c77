//! Steps of agents: on one site, and each on another, which the program never makes.
#![tactic(auto)]

#[cfg(test)]
mod steps;
#[cfg(test)]
mod telling;
