//! The tables of the schema: the types of bundles, promises and bodies, what their attributes take, the forms of texts, and
//! what functions take.
#![tactic(auto)]

mod body_attributes;
mod forms;
mod functions;
mod kinds;
mod promise_attributes;

pub use body_attributes::{body_attribute, required};
pub use forms::{has_form, minutes};
pub use functions::{ClassFunction, Function, TextFunction, function_named};
pub use kinds::{
    BodyType, BundleType, Form, Kind, PromiseType, body_type, body_word, bundle_type,
    has_promise_type, is_foreign_body_type, is_foreign_bundle_type, is_foreign_promise_type,
    promise_type,
};
pub use promise_attributes::{choices, own_attribute, promise_attribute};
