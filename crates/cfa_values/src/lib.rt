//! The checks of values by the kinds that attributes ask for, and the refusals of those that are wrong.
#![tactic(auto)]

mod attributes;
mod class_texts;
mod context;
mod control_lists;
mod definitions;
mod function_calls;
mod items;
mod lists;
mod named_blocks;
mod refusals;
mod scope;
mod shapes;
mod texts;
mod values;

pub use attributes::{Table, has_attribute, note_attributes, value_named};
pub use context::{Context, Home, note_text_scope};
pub use definitions::{BodyEntry, BundleEntry, Definitions};
pub use items::{Item, known_item, known_items, known_text, note_repeated};
pub use refusals::{Code, Refusal, note_if};
pub use shapes::{Shape, shape_of};
pub use texts::{is_known, is_list_reference, note_item};
pub use values::note_value;
