//! The tree of a policy: blocks, sections, promises, attributes, values and class expressions, and the grammar that
//! says which tokens read as which tree.
#![tactic(auto)]

mod attributes;
mod blocks;
mod class_texts;
mod expressions;
mod guarded;
mod guards;
mod joining;
mod laws;
mod promises;
mod sections;
mod values;

pub use attributes::Attribute;
pub use blocks::{Block, Body, Bundle, Named, Policy};
pub use class_texts::{ExprErr, read_expr};
pub use expressions::Expr;
pub use guarded::GuardedPromises;
pub use guards::{
    DEPTH_LIMIT, GuardErr, GuardLevel, GuardProgress, GuardState, guard_start, guard_with_class,
    take_in_guard,
};
pub use joining::join;
pub use laws::expressions_are_read;
pub use promises::{Guard, Promise, Promises};
pub use sections::Section;
pub use values::Value;
