//! What a crate sees of a text's declarations, and the text's queries, with their types as terms of an interner.
//!
//! Declarations and queries have no binders: a lifetime that a `for<...>` binds becomes `'static`, because rules hold up to lifetimes. So
//! does a lifetime parameter that occurs only in an impl's where-clauses, and each one in a struct's fields and a trait's bounds. Lifetimes
//! in headers stay.
#![tactic(auto)]

mod items;
mod later;
pub mod laws;
mod parts;
mod plain;
mod question;
mod view;

pub use later::lower_later;
pub use laws::{
    bounds_are_applied, fields_speak_of_parameters, impls_speak_of_parameters,
    refutations_have_variables_alone, texts_are_declared_well,
};
pub use question::{LoweredQuestion, lower_question};
pub use view::{lower, lower_behind};
