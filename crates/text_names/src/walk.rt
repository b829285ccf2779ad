//! The steps of the machine that visits the cells of a type from the last to the first.
ghost use Rattle.std.specs.Prelude.{◌≡◌, ◌+◌, ◌<◌, ◌^◌, ◌∷◌, [], length, map, reverse, not, ◌&&◌, OnOk, MatchOption};
ghost use Rattle.std.specs.Option.{option_map};
ghost use Rattle.text_lines.specs.TokenViews.{text_of};
ghost use Rattle.text_tables.specs.Views.{sort_of_kind};
ghost use Rattle.text_names.specs.Views.{resolved_in, label_in};
ghost use Rattle.text_names.specs.WalkViews.{place_of, frame_of, frames_in, WalkSteps};
ghost use Rattle.text_names.specs.Machine.{Sight, reference_step, lifetime_step, leaf_step, variable_step, number_step, named_step, wrapped_step, array_step, tuple_step, fn_step, fn_to_step, bound_step, fn_frame, params, is_const_place, deeper, type_place, outer_scope, going, using};
ghost use Rattle.text_lines.specs.Back.{down_to};
ghost use Rattle.text_names.specs.Resolved.{node_cell, length_cell};
ghost use Rattle.type_terms.specs.Promised.Label as label;
ghost use Rattle.text_language.specs.Tokens.{number_from};
ghost use Rattle.text_language.specs.Uses.{length_uses, lifetime_use};
ghost use Rattle.text_lines.specs.TypeViews.{cells_in, length_of};
ghost use Rattle.text_names.specs.Resolving.{nothing_found};

use crate::binders::Binders;
use crate::findings::Findings;
use crate::found::Found;
use crate::looked_up::Names;
use crate::resolved::{NodeLabel, ResolvedCell};
use crate::{heads, judge_use};
use std::alloc::{AllocError, Global};
use text_lines::{Cell, CellCursor, Length};
use text_tables::ParamKind;

/// The position of an argument or a type.
#[derive(Clone, Copy)]
pub(crate) struct Place {
    pub sort: ParamKind,
    /// How many more types may be nested from here on. `None` is any number.
    pub room: Option<usize>,
    /// Whether its resolved cells are wanted.
    pub is_kept: bool,
}

/// What is inside something that is open.
#[derive(Clone, Copy)]
pub(crate) enum Inside<'n> {
    Types,
    /// The items of a `dyn`.
    Items,
    /// Arguments for parameters of these kinds, of which this many are left.
    Args { kinds: &'n [ParamKind], left: usize },
}

/// What is open. It begins at `start`, and what is inside it begins at `inner`.
#[derive(Clone, Copy)]
pub(crate) struct Frame<'n> {
    pub start: usize,
    pub inner: usize,
    pub binds: bool,
    pub holds: Inside<'n>,
    pub room: Option<usize>,
    pub is_kept: bool,
}

/// The head of a bound of a `dyn`: its trait, and the positions at which its binder and its arguments begin.
#[derive(Clone, Copy)]
pub(crate) struct BoundHead<'a> {
    pub name: &'a [u8],
    pub start: usize,
    pub inner: usize,
}

/// What comes next: a type or an argument, what is open, or nothing.
#[derive(Clone, Copy)]
pub(crate) enum Next<'n> {
    Visiting(Place),
    /// What was opened last. It is on the stack only while something inside it is visited, so a name alone needs no stack.
    Opened(Frame<'n>),
    /// What is on top of the stack.
    Going,
    Finished,
}

/// The state of the machine.
pub(crate) struct Walk<'n, 'c, 'a> {
    pub rest: CellCursor<'c, 'a>,
    pub frames: Vec<Frame<'n>>,
    pub binders: Binders<'a>,
    pub found: Found<'a>,
}

// Hand-written so that the prover sees one drop call: docs/PROVING.md#drop.
impl Drop for Walk<'_, '_, '_> {
    fn drop(self) {
        let Walk {
            rest: _,
            frames: _,
            binders: _,
            found: _,
        } = self;
    }
}

/// The room inside a type.
pub(crate) fn deeper(room: Option<usize>) -> Option<usize>
    ensures { result ≡ deeper room }
{
    match room {
        Some(room) => Some(room.saturating_sub(1)),
        None => None,
    }
}

impl<'n, 'c, 'a> Walk<'n, 'c, 'a> {
    /// The state after the last of these cells.
    pub fn new(alloc: Global, cells: &'c [Cell<'a>]) -> Self
        ensures rest { result.rest ≡ reverse (cells_in cells.now) }
        ensures frames { frames_in result.frames.items ≡ [] }
        ensures binders { result.binders ≡ [] }
        ensures found { result.found ≡ nothing_found }
    {
        Walk {
            rest: CellCursor::new(cells),
            frames: Vec::new(alloc),
            binders: Binders::new(alloc),
            found: Found::new(alloc),
        }
    }

    /// What was found.
    pub fn into_found(self) -> Found<'a>
        ensures { result ≡ self.entry.found }
    {
        let Walk {
            rest: _,
            frames: _,
            binders: _,
            found,
        } = self;
        found
    }

    /// Opens what the last cell is.
    pub fn push(&mut self, frame: Frame<'n>) -> Result<(), AllocError>
        ensures frames { OnOk result (frames_in self.new.frames.items ≡ frame_of frame.entry ∷ frames_in self.old.frames.items) }
        ensures rest { self.new.rest ≡ self.old.rest }
        ensures binders { self.new.binders ≡ self.old.binders }
        ensures found { self.new.found ≡ self.old.found }
    {
        self.frames.push(frame)?;
        Ok(())
    }

    /// Closes what was opened last.
    pub fn pop(&mut self) -> Option<Frame<'n>>
        ensures frames { MatchOption result (frames_in self.old.frames.items ≡ [])
            (λ f. frames_in self.old.frames.items ≡ frame_of f ∷ frames_in self.new.frames.items) }
        ensures rest { self.new.rest ≡ self.old.rest }
        ensures binders { self.new.binders ≡ self.old.binders }
        ensures found { self.new.found ≡ self.old.found }
    {
        self.frames.pop()
    }

    /// Ends this frame, which was on top: all inside it has been visited.
    pub fn close(&mut self, frame: Frame<'n>)
        ensures rest { self.new.rest ≡ down_to frame.entry.start self.old.rest }
        ensures binders { self.new.binders ≡ outer_scope frame.entry.binds self.old.binders }
        ensures frames { self.new.frames ≡ self.old.frames }
        ensures found { self.new.found ≡ self.old.found }
    {
        if frame.binds {
            self.binders.leave();
        }
        self.rest.down_to(frame.start);
    }

    /// The step at a type with no others inside.
    pub fn leaf(&mut self, place: Place, label: NodeLabel<'a>) -> Result<Next<'n>, AllocError>
        ensures { (v : Sight) → WalkSteps result (λ fs s r a. leaf_step v (place_of place) fs s (label_in label.entry) r a) self.old self.new }
    {
        let cell = ResolvedCell::Node { label, inside: 0 };
        self.found.add(place, judge_use::misfits(place.sort), cell)?;
        Ok(Next::Going)
    }

    /// The step at a variable: one more use, one more variable, and a resolved cell with its name.
    pub fn variable(&mut self, place: Place, name: &'a [u8]) -> Result<Next<'n>, AllocError>
        ensures { (v : Sight) → WalkSteps result (λ fs s r a. variable_step v (place_of place) fs s name.now r a) self.old self.new }
    {
        let faults = judge_use::named_misfits(place.sort).either(judge_use::variable(name));
        let cell = ResolvedCell::Variable {
            sort: place.sort,
            name,
        };
        self.found.add(place, faults, cell)?;
        self.found.note_variable(name, place.sort)?;
        Ok(Next::Going)
    }

    /// The step at a lifetime as an argument.
    pub fn lifetime<N: Names>(
        &mut self,
        names: &N,
        place: Place,
        name: &'a [u8],
    ) -> Result<Next<'n>, AllocError>
        ensures { WalkSteps result (λ fs s r a. lifetime_step (N.sight names.now) (place_of place) fs s name.now r a) self.old self.new }
    {
        let region = judge_use::region(names, &self.binders, name);
        let unknown = judge_use::lifetime(names, &self.binders, name);
        let faults = unknown.either(judge_use::lifetime_misfits(place.sort));
        self.found
            .keep(place.is_kept, ResolvedCell::Lifetime(region))?;
        self.found.note(faults);
        Ok(Next::Going)
    }

    /// The step at a number as an argument.
    pub fn number(&mut self, place: Place, digits: &'a [u8]) -> Result<Next<'n>, AllocError>
        ensures { (v : Sight) → WalkSteps result (λ fs s r a. number_step v (place_of place) fs s (number_from 0 digits.now) r a) self.old self.new }
    {
        let faults = judge_use::number_argument(place.sort, digits);
        let label = NodeLabel::Value(digits);
        self.found
            .keep(place.is_kept, ResolvedCell::Node { label, inside: 0 })?;
        self.found.note(faults);
        Ok(Next::Going)
    }

    /// The step at a struct or a parameter with its arguments.
    pub fn named<N: Names>(
        &mut self,
        names: &'n N,
        place: Place,
        name: &'a [u8],
        start: usize,
    ) -> Result<Next<'n>, AllocError>
        ensures { WalkSteps result (λ fs s r a. named_step (N.sight names.now) (place_of place) fs s name.now start r a) self.old self.new }
    {
        let count = self.rest.count_above(start);
        let meaning = names.known(name);
        let misfits = judge_use::named_misfits(place.sort);
        let faults = misfits.either(judge_use::name(names, place.sort, name, count, meaning));
        let cell = heads::named_cell(names, place.sort, name, count, meaning);
        self.found.add(place, faults, cell)?;
        let kinds = heads::struct_kinds(meaning);
        Ok(Next::Opened(Frame {
            start,
            inner: start,
            binds: false,
            holds: Inside::Args { kinds, left: count },
            room: deeper(place.room),
            is_kept: keeps_args(place),
        }))
    }

    /// The step at an array. Its item type comes next.
    pub fn array<N: Names>(
        &mut self,
        names: &N,
        place: Place,
        length: Length<'a>,
    ) -> Result<Next<'n>, AllocError>
        ensures { WalkSteps result (λ fs s r a. array_step (N.sight names.now) (place_of place) fs s (length_of length.entry) r a) self.old self.new }
    {
        let faults = judge_use::misfits(place.sort).either(judge_use::length(names, length));
        let label = NodeLabel::Array;
        self.found
            .keep(place.is_kept, ResolvedCell::Node { label, inside: 2 })?;
        let cell = heads::length_cell(names, length);
        self.found.add(place, faults, cell)?;
        self.found.note_length(length)?;
        Ok(Next::Visiting(inner_place(place)))
    }

    /// The step at a pointer or a slice. The type inside it comes next.
    pub fn wrapped(&mut self, place: Place, label: NodeLabel<'a>) -> Result<Next<'n>, AllocError>
        ensures { (v : Sight)
            → WalkSteps result (λ fs s r a. wrapped_step v (place_of place) fs s [] (λ cs. node_cell (label_in label.entry) 1 ∷ cs) r a) self.old self.new }
    {
        let cell = ResolvedCell::Node { label, inside: 1 };
        self.found.add(place, judge_use::misfits(place.sort), cell)?;
        Ok(Next::Visiting(inner_place(place)))
    }

    /// The step at a reference `&T`. T comes next.
    pub fn reference<N: Names>(
        &mut self,
        names: &N,
        place: Place,
        lifetime: Option<&'a [u8]>,
        is_mut: bool,
    ) -> Result<Next<'n>, AllocError>
        ensures { WalkSteps result
            (λ fs s r a. reference_step (N.sight names.now) (place_of place) fs s (option_map text_of lifetime.entry) is_mut r a) self.old self.new }
    {
        let region = judge_use::optional_region(names, &self.binders, lifetime);
        let unknown = judge_use::optional_lifetime(names, &self.binders, lifetime);
        let faults = judge_use::misfits(place.sort).either(unknown);
        let cell = ResolvedCell::Reference { region, is_mut };
        self.found.add(place, faults, cell)?;
        Ok(Next::Visiting(inner_place(place)))
    }

    /// The step at a tuple. The cells tell how many items it has, and they come next.
    pub fn tuple(&mut self, place: Place, start: usize) -> Result<Next<'n>, AllocError>
        ensures { (v : Sight) → WalkSteps result (λ fs s r a. tuple_step v (place_of place) fs s start r a) self.old self.new }
    {
        let count = self.rest.count_above(start);
        let cell = ResolvedCell::Node {
            label: NodeLabel::Tuple,
            inside: count,
        };
        self.found.add(
            place,
            judge_use::misfits(place.sort).either(judge_use::items(count)),
            cell,
        )?;
        Ok(Next::Opened(Frame {
            start,
            inner: start,
            binds: false,
            holds: Inside::Types,
            room: deeper(place.room),
            is_kept: place.is_kept,
        }))
    }
    /// Opens what binds these lifetimes.
    fn open(&mut self, frame: Frame<'n>, bound: Vec<&'a [u8]>) -> Result<(), AllocError>
        ensures frames { OnOk result (frames_in self.new.frames.items ≡ frame_of frame.entry ∷ frames_in self.old.frames.items) }
        ensures binders { OnOk result (self.new.binders ≡ map text_of bound.entry.items ∷ self.old.binders) }
        ensures rest { self.new.rest ≡ self.old.rest }
        ensures found { self.new.found ≡ self.old.found }
    {
        self.binders.enter(bound)?;
        self.push(frame)?;
        Ok(())
    }

    /// The step at a `fn` with a written output, which is the last of its types.
    pub fn fn_to<N: Names>(
        &mut self,
        names: &N,
        alloc: Global,
        place: Place,
        start: usize,
        inner: usize,
    ) -> Result<Next<'n>, AllocError>
        ensures { WalkSteps result (λ fs s r a. fn_to_step (N.sight names.now) (place_of place) fs s start inner r a) self.old self.new }
    {
        let bound = self.rest.names_between(alloc, start, inner)?;
        let count = self.rest.count_above(inner);
        let inputs = count.saturating_sub(1);
        let taken = judge_use::binder(names, alloc, &self.binders, &bound)?;
        let own = taken.either(judge_use::items(inputs));
        let faults = judge_use::misfits(place.sort).either(own);
        let label = NodeLabel::Fn(bound.len());
        let cell = ResolvedCell::Node {
            label,
            inside: count,
        };
        self.found.add(place, faults, cell)?;
        self.open(fn_frame(place, start, inner), bound)?;
        Ok(Next::Going)
    }
    /// The step at a `fn` without a written output.
    pub fn fn_to_unit<N: Names>(
        &mut self,
        names: &N,
        alloc: Global,
        place: Place,
        start: usize,
        inner: usize,
    ) -> Result<Next<'n>, AllocError>
        requires { length self.old.rest + 1 < 2 ^ 64 }
        ensures { WalkSteps result (λ fs s r a. fn_step (N.sight names.now) (place_of place) fs s start inner r a) self.old self.new }
    {
        let bound = self.rest.names_between(alloc, start, inner)?;
        let count = self.rest.count_above(inner);
        let taken = judge_use::binder(names, alloc, &self.binders, &bound)?;
        let own = taken.either(judge_use::items(count));
        let faults = judge_use::misfits(place.sort).either(own);
        let label = NodeLabel::Fn(bound.len());
        let inside = count + 1;
        self.found
            .keep(place.is_kept, ResolvedCell::Node { label, inside })?;
        let output = ResolvedCell::Node {
            label: NodeLabel::Tuple,
            inside: 0,
        };
        self.found.add(place, faults, output)?;
        self.open(fn_frame(place, start, inner), bound)?;
        Ok(Next::Going)
    }

    /// The step at a lifetime of a `dyn`, which is the outer frame.
    pub fn bound_lifetime<N: Names>(
        &mut self,
        names: &N,
        outer: Frame<'n>,
        name: &'a [u8],
    ) -> Result<Next<'n>, AllocError>
        ensures { WalkSteps result
            (λ fs s r a. going (frame_of outer.entry ∷ fs) s r (using (N.sight names.now) (lifetime_use s name.now ∷ []) a)) self.old self.new }
    {
        let faults = judge_use::lifetime(names, &self.binders, name);
        self.found.note(faults);
        self.push(outer)?;
        Ok(Next::Going)
    }

    /// The step at a bound of a `dyn`, which is the outer frame.
    pub fn bound<N: Names>(
        &mut self,
        names: &'n N,
        alloc: Global,
        outer: Frame<'n>,
        head: BoundHead<'a>,
    ) -> Result<Next<'n>, AllocError>
        ensures { WalkSteps result (λ fs s r a. bound_step (N.sight names.now) (frame_of outer.entry) fs s
            head.entry.name.now head.entry.start head.entry.inner r a) self.old self.new }
    {
        let BoundHead { name, start, inner } = head;
        let bound = self.rest.names_between(alloc, start, inner)?;
        let count = self.rest.count_above(inner);
        let meaning = names.known(name);
        let taken = judge_use::binder(names, alloc, &self.binders, &bound)?;
        let faults = taken.either(judge_use::bound(names, name, count, meaning));
        let is_kept = is_kept_but(outer.is_kept, heads::is_auto(names, name, meaning));
        let label = NodeLabel::Principal {
            names: bound.len(),
            number: heads::trait_number(meaning),
        };
        let cell = ResolvedCell::Node {
            label,
            inside: count,
        };
        self.found.keep(is_kept, cell)?;
        self.found.note(faults);
        self.push(outer)?;
        let kinds = heads::trait_kinds(meaning);
        let frame = Frame {
            start,
            inner,
            binds: true,
            holds: Inside::Args { kinds, left: count },
            room: outer.room,
            is_kept,
        };
        self.open(frame, bound)?;
        Ok(Next::Going)
    }
}

/// Whether the resolved cells of a bound are wanted: those of an auto trait are not.
fn is_kept_but(is_kept: bool, is_auto: bool) -> bool
    ensures { result ≡ (is_kept && not is_auto) }
{
    is_kept && !is_auto
}

/// The frame of a `fn`.
fn fn_frame<'n>(place: Place, start: usize, inner: usize) -> Frame<'n>
    ensures { frame_of result ≡ fn_frame (place_of place) start inner }
{
    Frame {
        start,
        inner,
        binds: true,
        holds: Inside::Types,
        room: deeper(place.room),
        is_kept: place.is_kept,
    }
}

/// The position of the type inside a type with one part.
pub(crate) fn inner_place(place: Place) -> Place
    ensures { place_of result ≡ type_place (deeper place.room) place.is_kept }
{
    Place {
        sort: ParamKind::Type,
        room: deeper(place.room),
        is_kept: place.is_kept,
    }
}

/// Whether the resolved cells of a name's arguments are wanted: those of a constant are not.
fn keeps_args(place: Place) -> bool
    ensures { result ≡ (place.is_kept && not (is_const_place (sort_of_kind place.sort))) }
{
    match place.sort {
        ParamKind::Const => false,
        _ => place.is_kept,
    }
}
