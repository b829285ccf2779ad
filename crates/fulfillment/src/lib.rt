//! Goals that share the inference variables of one table and have to hold together.
//!
//! A type checker does not ask one goal at a time. Of `let v = s.into(); v.push(1u8)` it knows `Str: Into<?v>` and `?v: Push<u8>`: each alone
//! is ambiguous, and together they give `?v` one value. So it registers both in a [`FulfillmentCtxt`] and has them selected: each is
//! evaluated over the same table, what an answer fixes stays in the table, and goals that are still open are evaluated again.
#![tactic(auto)]

mod evaluating;
mod laws;
mod obligation;
mod selecting;

pub use laws::selecting_laws;
pub use obligation::{Obligation, ObligationId, Standing, Stood};
pub use selecting::{FulfillmentCtxt, ObligationsSnapshot, Selected};
