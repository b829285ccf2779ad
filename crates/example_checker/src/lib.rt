//! An example of the library: a checker that asks a text its queries one by one, and passes on what their answers promise.
//!
//! Its code names the crate `coherence` alone (its proof also `sessions`). docs/LIBRARY.md shows the same function.
#![tactic(auto)]

ghost use Rattle.std.specs.Prelude.{◌≡◌, None, Ok, IfOk, IfSome};
ghost use Rattle.coherence.specs.Queries.{HasNoQuery};
ghost use Rattle.example_checker.specs.Findings.{IsFound};

use coherence::{Asker, Fault, NamedAnswer, Query, RefuteAnswer};

/// What the checker finds of a query.
#[derive(Clone, Copy)]
pub enum Finding {
    /// The bound has a proof.
    Holds,
    /// The bound has no proof in any linked set, whatever other crates add.
    NeverHolds,
    /// Neither is certain.
    Unknown,
}

/// What is found of the query with this number, from 1. `None` if the text has no such query.
pub fn check_query(asker: &mut Asker, number: u32) -> Result<Option<Finding>, Fault>
    ensures found { IfOk result (λ found. IfSome found (IsFound asker.old.depth asker.old.declarations number)) }
    ensures none { result ≡ Ok None → HasNoQuery asker.old.declarations number }
    ensures stays { asker.new ≡ asker.old }
{
    let Some(query) = asker.query(number) else {
        return Ok(None);
    };
    let found = match query {
        Query::Prove(query) => match asker.prove(query)? {
            NamedAnswer::Yes(_values) => Finding::Holds,
            NamedAnswer::Maybe(_values) => Finding::Unknown,
            NamedAnswer::Unproved => Finding::Unknown,
        },
        Query::Refute(query) => match asker.refute(query)? {
            RefuteAnswer::No => Finding::NeverHolds,
            RefuteAnswer::Open => Finding::Unknown,
        },
    };
    Ok(Some(found))
}
