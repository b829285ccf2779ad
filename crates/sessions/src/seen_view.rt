//! What a session leaves for the session of a crate that sees more of the text.

ghost use Rattle.std.specs.Prelude.{◌≡◌, ◌<◌, ◌≤◌, ◌+◌, length, IfOk, Err};
ghost use Rattle.type_terms.specs.declared.interner.TheConstants.{MAX_HANDLES};
ghost use Rattle.text_lowering.specs.MostTerms.{most_terms};
ghost use Rattle.sessions.specs.SeenViews.{IsViewOf};
ghost use Rattle.sessions.specs.Promised.Subjects.{IsOfText};

use crate::view::{declarations_are_ready, lower_view};
use declarations::declarations::Declarations;
use std::alloc::Global;
use text_lowering::laws::impls_begin_declared;
use text_lowering::lower_behind;
use text_tables::Workspace;
use type_terms::interner::Interner;
use type_terms::{CrateId, Fault};

/// A view is passed on only while searches over its interner have started at most one frame for each 64 terms of the handle limit. A frame
/// makes some terms of its own, so what is passed on takes a small part of the next session's room.
const TERMS_FOR_A_FRAME: u32 = 64;

/// What a crate of a text sees, lowered. `Session::into_view` leaves it.
///
/// The session of another crate may begin with it, and lowers only what is new behind what both crates see alike (`Session::behind`). The
/// terms that the earlier session made stay in its interner, also those of what is removed.
pub struct SeenView {
    /// The crate that sees it.
    pub crate_id: CrateId,
    pub(crate) interner: Interner,
    pub(crate) declarations: Declarations,

    // How many frames searches over the interner have started.
    pub(crate) frames: u64,
}

// Hand-written so that the prover sees one drop call: docs/PROVING.md#drop.
impl Drop for SeenView {
    fn drop(self) {
        let SeenView {
            crate_id: _,
            interner: _,
            declarations: _,
            frames: _,
        } = self;
    }
}

impl SeenView {
    /// What a crate sees, lowered into a new interner. The errors are those of `lower`.
    pub(crate) fn new(
        alloc: Global,
        workspace: &Workspace,
        crate_id: CrateId,
        handles: u32,
    ) -> Result<SeenView, Fault>
        requires text { IsOfText workspace.now }
        requires declared { crate_id.index < length workspace.now.crates }
        requires few { handles ≤ MAX_HANDLES }
        ensures view { IfOk result (IsViewOf workspace.now crate_id.index handles) }
        ensures of_crate { IfOk result (λ view. view.crate_id ≡ crate_id) }
        ensures full { result ≡ Err Fault.Full → handles ≤ most_terms workspace.now crate_id.index }
    {
        let mut interner = Interner::new(alloc, handles);
        let declarations = lower_view(alloc, &mut interner, workspace, crate_id)?;
        Ok(SeenView {
            crate_id,
            interner,
            declarations,
            frames: 0,
        })
    }

    /// What another crate sees: only what is new behind what both see alike is lowered. The errors are those of `lower`.
    fn grown(
        self,
        alloc: Global,
        workspace: &Workspace,
        crate_id: CrateId,
        handles: u32,
    ) -> Result<SeenView, Fault>
        requires text { IsOfText workspace.now }
        requires declared { crate_id.index < length workspace.now.crates }
        requires view { IsViewOf workspace.now self.crate_id.index handles self }
        ensures view { IfOk result (IsViewOf workspace.now crate_id.index handles) }
        ensures of_crate { IfOk result (λ view. view.crate_id ≡ crate_id) }
        ensures full { result ≡ Err Fault.Full → handles ≤ length self.interner.entries + most_terms workspace.now crate_id.index }
    {
        impls_begin_declared();
        declarations_are_ready();
        let SeenView {
            crate_id: earlier,
            mut interner,
            mut declarations,
            frames,
        } = self;
        lower_behind(
            alloc,
            &mut interner,
            workspace,
            earlier,
            crate_id,
            &mut declarations,
        )?;
        Ok(SeenView {
            crate_id,
            interner,
            declarations,
            frames,
        })
    }

    /// What another crate sees. It grows from this one if few frames were started. Otherwise it is lowered into a new interner. The errors
    /// are those of `lower`.
    pub(crate) fn handed_on(
        self,
        alloc: Global,
        workspace: &Workspace,
        crate_id: CrateId,
        handles: u32,
    ) -> Result<SeenView, Fault>
        requires text { IsOfText workspace.now }
        requires declared { crate_id.index < length workspace.now.crates }
        requires few { handles ≤ MAX_HANDLES }
        requires view { IsViewOf workspace.now self.crate_id.index handles self }
        ensures view { IfOk result (IsViewOf workspace.now crate_id.index handles) }
        ensures of_crate { IfOk result (λ view. view.crate_id ≡ crate_id) }
        ensures full { result ≡ Err Fault.Full → handles ≤ length self.interner.entries + most_terms workspace.now crate_id.index }
    {
        let few = self.frames <= u64::from(handles / TERMS_FOR_A_FRAME);
        if few {
            return self.grown(alloc, workspace, crate_id, handles);
        }
        drop(self);
        SeenView::new(alloc, workspace, crate_id, handles)
    }

    /// Its interner, its declarations, and how many frames searches over the interner have started.
    pub(crate) fn into_parts(self) -> (Interner, Declarations, u64)
        ensures { result ≡ (self.interner, self.declarations, self.frames) }
    {
        let SeenView {
            crate_id: _,
            interner,
            declarations,
            frames,
        } = self;
        (interner, declarations, frames)
    }
}
