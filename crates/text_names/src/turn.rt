//! The loop over the cells of a type.
ghost use Rattle.std.specs.Prelude.{◌≡◌, ◌∷◌, drop};
ghost use Rattle.text_language.specs.Uses.{next_kind};
ghost use Rattle.text_names.specs.Machine.{Sight, arg_place, args_inside, frame_step, going, inside_step, item_step, step, type_place, types_inside, visit_step};
ghost use Rattle.text_tables.specs.Views.{sort_of_kind, sorts_of};
ghost use Rattle.text_names.specs.WalkViews.{frame_of, frames_in, inside_of, place_of, state_in, is_finished, WalkSteps, WalkComes, WalkEnds};

use crate::looked_up::Names;
use crate::resolved::NodeLabel;
use crate::walk::{BoundHead, Frame, Inside, Next, Place, Walk};
use std::alloc::{AllocError, Global};
use text_lines::Cell;
use text_tables::ParamKind;

/// The position of an argument for a parameter of this kind. Only types count as nested.
fn arg_place(sort: ParamKind, room: Option<usize>, is_kept: bool) -> Place
    ensures { place_of result ≡ arg_place (sort_of_kind sort) room is_kept }
{
    let room = match sort {
        ParamKind::Type => room,
        _ => None,
    };
    Place {
        sort,
        room,
        is_kept,
    }
}

/// The position of a type inside what is open.
fn type_place(room: Option<usize>, is_kept: bool) -> Place
    ensures { place_of result ≡ type_place room is_kept }
{
    Place {
        sort: ParamKind::Type,
        room,
        is_kept,
    }
}

fn kind_at(kinds: &[ParamKind], place: usize) -> ParamKind
    ensures { sort_of_kind result ≡ next_kind (drop place (sorts_of kinds.now)) }
{
    if place < kinds.len() {
        kinds[place]
    } else {
        ParamKind::Type
    }
}

impl<'n, 'c, 'a> Walk<'n, 'c, 'a> {
    /// The step at an argument of this frame, of which this many are left.
    fn args_inside(
        &mut self,
        frame: Frame<'n>,
        kinds: &'n [ParamKind],
        left: usize,
    ) -> Result<Next<'n>, AllocError>
        ensures { (v : Sight)
            → WalkSteps result (λ fs s r a. inside_step v (args_inside (sorts_of kinds.now) left) (frame_of frame.entry) fs s r a) self.old self.new }
    {
        if left == 0 {
            return Ok(Next::Finished);
        }
        let left = left - 1;
        self.push(Frame {
            holds: Inside::Args { kinds, left },
            ..frame
        })?;
        Ok(Next::Visiting(arg_place(kind_at(kinds, left), frame.room, frame.is_kept)))
    }

    fn type_inside(&mut self, frame: Frame<'n>) -> Result<Next<'n>, AllocError>
        ensures { (v : Sight) → WalkSteps result (λ fs s r a. inside_step v types_inside (frame_of frame.entry) fs s r a) self.old self.new }
    {
        self.push(frame)?;
        Ok(Next::Visiting(type_place(frame.room, frame.is_kept)))
    }

    /// The step at an item of the `dyn` that is this frame.
    fn item_inside<N: Names>(
        &mut self,
        names: &'n N,
        alloc: Global,
        frame: Frame<'n>,
    ) -> Result<Next<'n>, AllocError>
        ensures { WalkSteps result (λ fs s r a. item_step (N.sight names.now) (frame_of frame.entry) fs s r a) self.old self.new }
    {
        let before = self.rest.fork();
        match self.rest.next() {
            Some(Cell::Bound { name, start, inner }) => {
                self.bound(names, alloc, frame, BoundHead { name, start, inner })
            }
            Some(Cell::Lifetime(name)) => self.bound_lifetime(names, frame, name),
            _ => {
                self.rest = before;
                Ok(Next::Finished)
            }
        }
    }

    /// The step inside this frame, which was on top.
    fn inside<N: Names>(
        &mut self,
        names: &'n N,
        alloc: Global,
        frame: Frame<'n>,
    ) -> Result<Next<'n>, AllocError>
        ensures { WalkSteps result
            (λ fs s r a. inside_step (N.sight names.now) (inside_of frame.entry.holds) (frame_of frame.entry) fs s r a) self.old self.new }
    {
        match frame.holds {
            Inside::Types => self.type_inside(frame),
            Inside::Items => self.item_inside(names, alloc, frame),
            Inside::Args { kinds, left } => self.args_inside(frame, kinds, left),
        }
    }

    /// The step at this frame, which was on top: it ends, or something inside it comes.
    fn opened_step<N: Names>(
        &mut self,
        names: &'n N,
        alloc: Global,
        frame: Frame<'n>,
    ) -> Result<Next<'n>, AllocError>
        ensures { WalkSteps result (λ fs s r a. frame_step (N.sight names.now) (frame_of frame.entry ∷ fs) s r a) self.old self.new }
    {
        if self.rest.len() == frame.inner {
            self.close(frame);
            Ok(Next::Going)
        } else {
            self.inside(names, alloc, frame)
        }
    }

    /// The step at what is open.
    fn frame_step<N: Names>(&mut self, names: &'n N, alloc: Global) -> Result<Next<'n>, AllocError>
        ensures { WalkSteps result (λ fs s r a. frame_step (N.sight names.now) fs s r a) self.old self.new }
    {
        match self.pop() {
            None => Ok(Next::Finished),
            Some(frame) => self.opened_step(names, alloc, frame),
        }
    }

    /// The step at a cell in this position.
    fn visit<N: Names>(
        &mut self,
        names: &'n N,
        alloc: Global,
        place: Place,
    ) -> Result<Next<'n>, AllocError>
        ensures { WalkSteps result (λ fs s r a. visit_step (N.sight names.now) (place_of place) fs s r a) self.old self.new }
    {
        let before = self.rest.fork();
        match self.rest.next() {
            Some(Cell::Primitive(primitive)) => self.leaf(place, NodeLabel::Primitive(primitive)),
            Some(Cell::Never) => self.leaf(place, NodeLabel::Never),
            Some(Cell::Variable(name)) => self.variable(place, name),
            Some(Cell::Lifetime(name)) => self.lifetime(names, place, name),
            Some(Cell::Number(digits)) => self.number(place, digits),
            Some(Cell::Named { name, start }) => self.named(names, place, name, start),
            Some(Cell::Reference { lifetime, is_mut }) => {
                self.reference(names, place, lifetime, is_mut)
            }
            Some(Cell::Pointer { is_mut }) => self.wrapped(place, NodeLabel::Pointer { is_mut }),
            Some(Cell::Slice) => self.wrapped(place, NodeLabel::Slice),
            Some(Cell::Array(length)) => self.array(names, place, length),
            Some(Cell::Tuple { start }) => self.tuple(place, start),
            Some(Cell::Fn { start, inner }) => self.fn_to_unit(names, alloc, place, start, inner),
            Some(Cell::FnTo { start, inner }) => self.fn_to(names, alloc, place, start, inner),
            Some(Cell::Dyn { start }) => self.dyn_of(names, alloc, place, start),
            _ => {
                self.rest = before;
                Ok(Next::Finished)
            }
        }
    }

    /// One step.
    fn turn<N: Names>(
        &mut self,
        names: &'n N,
        alloc: Global,
        next: Next<'n>,
    ) -> Result<Next<'n>, AllocError>
        ensures { WalkComes result (step (N.sight names.now) (state_in next.entry self.old)) self.new }
    {
        match next {
            Next::Visiting(place) => self.visit(names, alloc, place),
            Next::Opened(frame) => self.opened_step(names, alloc, frame),
            Next::Going => self.frame_step(names, alloc),
            Next::Finished => Ok(Next::Finished),
        }
    }

    /// All steps from here on.
    pub fn run<N: Names>(
        &mut self,
        names: &'n N,
        alloc: Global,
        first: Next<'n>,
    ) -> Result<(), AllocError>
        ensures { WalkEnds result (N.sight names.now) (state_in first.entry self.old) self.new }
    {
        let mut next = first;
        while !next.is_finished() {
            next = self.turn(names, alloc, next)?;
        }
        Ok(())
    }

    /// Opens this frame, and runs all steps that follow.
    pub fn run_frame<N: Names>(
        &mut self,
        names: &'n N,
        alloc: Global,
        frame: Frame<'n>,
    ) -> Result<(), AllocError>
        ensures { WalkEnds result (N.sight names.now)
            (going (frame_of frame.entry ∷ frames_in self.old.frames.items) self.old.binders self.old.rest self.old.found) self.new }
    {
        self.run(names, alloc, Next::Opened(frame))
    }
}

impl Next<'_> {
    fn is_finished(self) -> bool
        ensures { result ≡ is_finished self.entry }
    {
        matches!(self, Next::Finished)
    }
}
