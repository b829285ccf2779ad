//! What is said of a faulty text: for each faulty line the token that its fault is about, found by what the lines above declare, and what
//! could stand there.
#![tactic(auto)]

mod faults;
mod further;
mod grammar;
mod hints;
mod offending;
mod passed;
mod similar;
mod sorts;
mod types;

pub use faults::fault_diagnostic;
pub use further::{FurtherFault, further_faults};
