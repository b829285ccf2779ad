//! What a text declares and queries, in tables, and its types as terms of an interner.
//!
//! The tables hold names and what they stand for, what each crate sees, and types as lists of cells by numbers. `core` and its items come
//! first.
#![tactic(auto)]

mod cell;
mod cells;
mod core_items;
mod declared;
mod lists;
mod stack;
mod tables;
mod workspace;

pub use cell::{ParamKind, TermCell};
pub use declared::{
    Asked, Check, ImplEntry, Known, LaterEntry, Param, QuestionEntry, ReferenceCells, StructEntry,
    TraitEntry,
};
pub use lists::{lower_args, lower_types};
pub use tables::{ENTRY_LIMIT, Tables};
pub use workspace::Workspace;
