//! What an inference session leaves.

ghost use Rattle.std.specs.Prelude.{◌≡◌, length};

use crate::assumption::Assumption;
use crate::open_snapshot::OpenSnapshot;
use inference::Infer;
use sessions::{LeftSession, Limits};
use type_terms::kinds::GenericArgKind;

/// An inference session without its text. `InferenceSession::leave` leaves it, and `InferenceSession::resumed` goes on with it.
#[derive(Drop)]
pub struct LeftInference {
    pub limits: Limits,
    /// What its session leaves.
    pub session: LeftSession,
    pub(crate) infer: Infer,
    pub(crate) terms: Vec<GenericArgKind>,
    pub(crate) snapshots: Vec<OpenSnapshot>,
    pub(crate) assumptions: Vec<Assumption>,
}

impl LeftInference {
    /// How many terms have numbers.
    pub fn term_count(&self) -> usize
        ensures { result ≡ length self.now.terms.items }
    {
        self.terms.len()
    }

    /// What its session leaves. Variables, values, goals and terms are dropped.
    pub fn into_left_session(self) -> LeftSession
        ensures { result ≡ self.session }
    {
        let LeftInference {
            limits: _,
            session,
            infer: _,
            terms: _,
            snapshots: _,
            assumptions: _,
        } = self;
        session
    }
}
