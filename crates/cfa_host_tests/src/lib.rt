//! The real host in folders, and direct calls of what stands on a host and no program calls.
#![tactic(auto)]

#[cfg(test)]
mod faulty_files;
#[cfg(test)]
mod folders;
#[cfg(test)]
mod host_calls;
#[cfg(test)]
mod odd_things;
#[cfg(test)]
mod refusals;
#[cfg(test)]
mod reports;
#[cfg(test)]
mod sites;
#[cfg(test)]
mod tables;
#[cfg(test)]
mod texts;
