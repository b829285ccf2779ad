//! Sessions on one text, one at a time: each goes on with what the last one of its crate left.

ghost use Rattle.std.specs.Prelude.{◌≡◌, ◌<◌, [], length, IfOk, IfSome};
ghost use Rattle.sessions.specs.LeftSessions.{IsLeftSession};
ghost use Rattle.sessions.specs.TextLanguage.Promised.Declarations.{Declarations};
ghost use Rattle.sessions.specs.Promised.Subjects.{IsOfText};
ghost use Rattle.session_inference.specs.LeftInferences.{IsLeftInference};
ghost use Rattle.coherence.specs.KeptSessions.{AreLeftSessions};

use session_inference::LeftInference;
use sessions::text_tables::Workspace;
use sessions::type_terms::{CrateId, Fault};
use sessions::{LeftSession, Limits, Session};
use std::alloc::Global;

/// What sessions left is kept while their crates see at most so many bytes of text, taken together. (Each is counted with the whole text.)
const KEPT_BYTES: usize = 4_194_304;

/// What so many sessions left is kept at most.
const KEPT_SESSIONS: usize = 16;

/// What sessions left is kept while searches over their interners have started at most so many frames, taken together. A frame leaves some
/// terms, a goal and a result.
const KEPT_FRAMES: u64 = 65_536;

/// What at most so many frames found is found again sooner than a crate is lowered.
const FEW_FRAMES: u64 = 256;

/// So many bytes of a line count as a frame: they may add terms.
const FRAME_BYTES: usize = 64;

/// What sessions on a text left, one a crate at most.
///
/// The oldest is dropped first. What one session left is kept for a text of any length.
#[derive(Drop)]
pub struct KeptSessions {
    pub alloc: Global,
    pub limits: Limits,
    /// What so many sessions left is kept at most, and at least of one.
    most: usize,
    /// The latest stands last.
    pub left: Vec<LeftSession>,
    /// The crates of all sessions so far.
    asked: Vec<CrateId>,
}

impl KeptSessions {
    /// For sessions on a text of so many bytes.
    pub fn new(alloc: Global, limits: Limits, text_length: usize) -> Self
        ensures limits { result.limits ≡ limits }
        ensures none { result.left.items ≡ [] }
    {
        let most = (KEPT_BYTES / text_length.max(1)).clamp(1, KEPT_SESSIONS);
        KeptSessions {
            alloc,
            limits,
            most,
            left: Vec::new(alloc),
            asked: Vec::new(alloc),
        }
    }

    /// Whether the crate has had a session.
    fn was_asked(&self, id: CrateId) -> bool {
        self.asked.iter().any(|asked| asked.index == id.index)
    }

    /// The place of what a session of this crate goes on with: that of its crate. Where there is none, it is the oldest, whose view goes
    /// over: if there is no room for one more, or if little was found there and the crate has had no session.
    fn place_for(&self, id: CrateId) -> Option<usize>
        ensures there { IfSome result (λ place. place < length self.now.left.items) }
    {
        for place in 0..self.left.len() {
            if self.left[place].crate_id.index == id.index {
                return Some(place);
            }
        }
        let oldest = self.left.first()?;
        let has_room = self.left.len() < self.most;
        if has_room && (self.was_asked(id) || oldest.frames() > FEW_FRAMES) {
            return None;
        }
        Some(0)
    }

    /// Takes out what a session of this crate goes on with.
    fn take(&mut self, id: CrateId) -> Option<LeftSession>
        ensures limits { self.new.limits ≡ self.old.limits }
        ensures taken { (d : Declarations) → AreLeftSessions d self.old.limits self.old.left.items
            → IfSome result (IsLeftSession d self.old.limits.depth self.old.limits.handles) × AreLeftSessions d self.old.limits self.new.left.items }
    {
        let place = self.place_for(id)?;
        Some(self.left.remove(place))
    }

    /// Notes that the crate has a session. Where memory is refused, that is forgotten.
    fn note(&mut self, id: CrateId)
        ensures limits { self.new.limits ≡ self.old.limits }
        ensures left { self.new.left ≡ self.old.left }
    {
        if !self.was_asked(id) {
            let _ = self.asked.push(id);
        }
    }

    /// A session of this crate, which goes on with what an earlier one left. It counts from nothing, so no search is given up for what
    /// else was asked. Stored results can shorten one.
    pub fn resume<'w>(
        &mut self,
        workspace: &'w Workspace,
        id: CrateId,
    ) -> Result<Session<'w>, Fault>
        requires parsed { IsOfText workspace.now }
        requires declared { id.index < length workspace.now.crates }
        requires left { AreLeftSessions workspace.now self.old.limits self.old.left.items }
        ensures declarations { IfOk result (λ session. session.declarations ≡ workspace.now) }
        ensures of_crate { IfOk result (λ session. session.of_crate ≡ id.index) }
        ensures depth { IfOk result (λ session. session.depth ≡ self.old.limits.depth) }
        ensures handles { IfOk result (λ session. session.handles ≡ self.old.limits.handles) }
        ensures limits { self.new.limits ≡ self.old.limits }
        ensures left { AreLeftSessions workspace.now self.old.limits self.new.left.items }
    {
        let left = self.take(id);
        self.note(id);
        let mut session = Session::after(self.alloc, workspace, id, self.limits, left)?;
        session.begin_count();
        Ok(session)
    }

    /// Keeps what a session leaves behind this answer to a line of so many bytes. After a fault it keeps nothing of the session, so that
    /// what filled a table or took memory goes.
    pub fn keep<T>(&mut self, session: Session<'_>, answer: &Result<T, Fault>, line_length: usize)
        requires depth { session.depth ≡ self.old.limits.depth }
        requires handles { session.handles ≡ self.old.limits.handles }
        requires left { AreLeftSessions session.declarations self.old.limits self.old.left.items }
        ensures limits { self.new.limits ≡ self.old.limits }
        ensures left { AreLeftSessions session.entry.declarations self.old.limits self.new.left.items }
    {
        if answer.is_err() {
            return;
        }
        let mut left = session.leave();
        left.count(line_length.div_ceil(FRAME_BYTES) as u64);
        self.put(left);
    }

    /// Keeps what an inference session's searches found. Each of its terms counts as a frame.
    pub fn keep_inference(&mut self, left: LeftInference)
        ensures limits { self.new.limits ≡ self.old.limits }
        ensures left { (d : Declarations) → AreLeftSessions d self.old.limits self.old.left.items → IsLeftInference d left
            → AreLeftSessions d self.old.limits self.new.left.items }
    {
        if left.limits.depth != self.limits.depth {
            return;
        }
        if left.limits.handles != self.limits.handles {
            return;
        }
        let terms = left.term_count();
        let mut session = left.into_left_session();
        session.count(terms as u64);
        self.put(session);
    }

    /// Keeps what a session left, as the latest. Drops it if it is too much alone, or if memory is refused. Drops the oldest until what is
    /// kept is not too much.
    fn put(&mut self, left: LeftSession)
        ensures limits { self.new.limits ≡ self.old.limits }
        ensures left { (d : Declarations) → AreLeftSessions d self.old.limits self.old.left.items
            → IsLeftSession d self.old.limits.depth self.old.limits.handles left → AreLeftSessions d self.old.limits self.new.left.items }
    {
        if left.frames() > KEPT_FRAMES {
            return;
        }
        let _ = self.left.push(left);
        'oldest: while !self.left.is_empty() && self.is_too_much() {
            let _ = self.left.remove(0);
        }
    }

    /// Whether more is kept than may be.
    fn is_too_much(&self) -> bool {
        let mut frames = 0u64;
        for left in &self.left {
            frames = frames.saturating_add(left.frames());
        }
        frames > KEPT_FRAMES || self.left.len() > self.most
    }

    /// Whether nothing is kept.
    pub fn is_empty(&self) -> bool {
        self.left.is_empty()
    }

    /// Drops all.
    pub fn clear(&mut self)
        ensures limits { self.new.limits ≡ self.old.limits }
        ensures none { self.new.left.items ≡ [] }
    {
        self.left.clear();
    }
}
