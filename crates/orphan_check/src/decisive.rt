//! The type that ends an orphan walk, found without listing the non-local types. Knowability needs no more.
ghost use Rattle.type_terms.specs.Promised.Handles.{Has};
ghost use Rattle.type_terms.specs.Terms.{args_lists};
ghost use Rattle.infer_table.specs.Content.{Ready};

use crate::errors::{IsFirstInputType, WalkError};
use crate::normalize::Normalize;
use crate::visited::Visited;
use crate::walk::{Met, Walk};
use std::alloc::Global;
use type_terms::kinds::GenericArgs;

/// The kind of type that ends an orphan walk.
#[derive(Clone, Copy)]
pub(crate) enum Decisive {
    Local,
    Uncovered,
}

impl<N: Normalize> Walk<'_, N> {
    ghost use Rattle.orphan_check.specs.Walks.{IsDecisive, steps_of_walk};

    /// Returns whether the first local or uncovered type is local or uncovered. `None` if there is neither.
    ///
    /// A type that was visited before with the same limit is skipped. All types in it were visited then, and none ended the walk. So the
    /// time for fundamental pairs `Pair<A, A>` that are nested n times grows with n, not with 2^n.
    pub fn decisive(
        &self,
        alloc: Global,
        args: GenericArgs,
        limit: u32,
    ) -> Result<Option<Decisive>, WalkError<N::Error>>
        requires held { Has self.now.context.cx.now.entries args_lists args.0 }
        requires ready { Ready self.now.context.cx.now.entries self.now.context.infcx.now }
        ensures { IsDecisive (steps_of_walk N.answers self.now limit args) result }
    {
        let mut pending = Vec::new(alloc);
        self.push_types(args, limit, IsFirstInputType::Yes, &mut pending)?;
        let mut visited = Visited::new(alloc);
        'walk: while let Some(next) = pending.pop() {
            if visited.enter(next.ty, next.limit) {
                continue;
            }
            match self.visit(next, &mut pending)? {
                Met::Local(_) => return Ok(Some(Decisive::Local)),
                Met::Uncovered(_) => return Ok(Some(Decisive::Uncovered)),
                Met::Entered | Met::NonLocal(_, _) => {}
            }
        }
        Ok(None)
    }
}
