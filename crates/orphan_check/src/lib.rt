//! The orphan check (RFC 2451), and which trait references are knowable. rustc: `coherence`.
#![tactic(auto)]

pub mod context;
mod decisive;
pub mod errors;
mod first_input_type;
pub mod knowable;
pub mod laws;
mod look;
pub mod normalize;
pub mod open_walk;
pub mod orphan;
mod visited;
mod walk;
