//! The declarations that rules are read from: the structs, traits and impls of the visible crates, as terms of an interner, and
//! indices to search them.
#![tactic(auto)]

pub mod apart;
pub mod arguments;
pub mod core_traits;
pub mod declarations;
mod elaborate;
mod heads;
pub mod items;
pub mod laws;
mod merge;
pub mod simplify;
mod unsizing;
