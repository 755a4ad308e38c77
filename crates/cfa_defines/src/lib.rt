//! What vars and classes promises define: what a promise reads, its combinations, and in each of them the variable or the
//! class that it sets.
#![tactic(auto)]

mod choosing;
mod class_promises;
mod combining;
mod expressions;
mod items;
mod maybes;
mod reads;
mod saying;
mod vars_promises;

pub use choosing::{count_choices, setting_choices};
pub use class_promises::{Raise, raises_of};
pub use combining::{Combined, combine, held_list};
pub use items::has_many_items;
pub use maybes::{first_maybe, first_maybe_of_guard};
pub use reads::{Read, arguments_of, own_reads};
pub use vars_promises::data_set;
