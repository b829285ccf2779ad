//! Queries of a text as values that say what they ask.

ghost use Rattle.std.specs.Prelude.{◌≡◌, None, IfSome};
ghost use Rattle.coherence.specs.Queries.{HasNoQuery, IsQueryAt};

use sessions::text_tables::{Asked, Workspace};
use sessions::type_terms::CrateId;

/// A `prove` query of a text, which [`Asker::prove`](crate::Asker::prove) answers.
#[derive(Clone, Copy)]
pub struct ProveQuery {
    /// The crate that asks.
    pub crate_id: CrateId,
    /// The query's number in the text, from 1.
    pub number: u32,
}

/// A `refute` query of a text, which [`Asker::refute`](crate::Asker::refute) answers.
#[derive(Clone, Copy)]
pub struct RefuteQuery {
    /// The crate that asks.
    pub crate_id: CrateId,
    /// The query's number in the text, from 1.
    pub number: u32,
}

/// A query of a text, with what it asks. A call that answers the other kind does not take it.
#[derive(Clone, Copy)]
pub enum Query {
    /// Has the bound a proof?
    Prove(ProveQuery),
    /// Is it certain that the bound has no proof in any linked set?
    Refute(RefuteQuery),
}

impl Query {
    /// The query of a text with this number, from 1. `None` if the text has no such query.
    pub fn of_text(workspace: &Workspace, number: u32) -> Option<Query>
        ensures is { IfSome result (IsQueryAt workspace.now number) }
        ensures none { result ≡ None → HasNoQuery workspace.now number }
    {
        let _crates = workspace.crates();
        let asked = workspace.questions();
        if number == 0 || asked.len() < number as usize {
            return None;
        }
        Some(match asked[number as usize - 1] {
            Asked::Prove(crate_id) => Query::Prove(ProveQuery { crate_id, number }),
            Asked::Refute(crate_id) => Query::Refute(RefuteQuery { crate_id, number }),
        })
    }
}
