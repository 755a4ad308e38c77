//! Worked rows of what a person is told beside the lines, and of what the program never calls: of the demo policy and its lines, of the
//! reading of escaped fields, of the clashes of scripts of edits, and of histories of journals.
#![tactic(auto)]

#[cfg(test)]
mod advice;
#[cfg(test)]
mod clashes;
#[cfg(test)]
mod demo;
#[cfg(test)]
mod escapes;
#[cfg(test)]
mod hints;
#[cfg(test)]
mod history;
#[cfg(test)]
mod output;
#[cfg(test)]
mod taken;
#[cfg(test)]
mod told;
