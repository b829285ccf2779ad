//! Visits of deep terms, by a list in memory.
//!
//! The list has what is still to be visited, and another one has the binders around what comes next. So a visit of a
//! deep term does not recurse on its depth. A visit cannot fail if memory is refused: if the list cannot grow, the part
//! is visited by recursion.
ghost use Rattle.std.specs.Prelude.{◌≡◌, [], ◌∷◌, MatchResult};
ghost use Rattle.std.specs.ControlFlow.{break_value};
ghost use Rattle.type_terms.specs.Promised.Handles.{Has, types, trees_at};
ghost use Rattle.type_terms.specs.Kinds.{TysHeld, tys_trees, args_trees};
ghost use Rattle.type_terms.specs.Promised.Handles.{ArgsHeld};
ghost use Rattle.type_terms.specs.Binders.{counts_of};
ghost use Rattle.type_terms.specs.Visits.{VisitsBelow, VisitsPieces, VisitsTerms};
ghost use Rattle.type_terms.specs.Pending.{part_trees, PartHeld, AllHeld, ahead, crossed, PutsAhead, path_pieces, part_here, both_here, bound_here, term_here, children_here, GoesOn};

use crate::binders::Binders;
use crate::interner::Interner;
use crate::kinds::{Bounds, GenericArgKind, Ty, TyKind};
use crate::visit::{SHALLOW, Seen, TypeVisitor, visit_const, visit_region};
use crate::visit_walk::{see_arg, see_below, see_bounds, see_ty};
use std::alloc::{AllocError, Global};
use std::ops::ControlFlow;

/// Terms to visit, one after the other.
#[derive(Clone, Copy)]
pub(crate) enum Part<'a> {
    Arg(GenericArgKind),
    Tys(&'a [Ty]),
    Args(&'a [GenericArgKind]),
    Bounds(Bounds),
}

/// What comes next in a visit.
#[derive(Clone, Copy)]
pub(crate) enum Pending<'a> {
    Visit(Part<'a>),
    /// The innermost binder ends.
    Leave,
}

/// The state of a visit.
#[derive(Drop)]
pub(crate) struct Path<'a> {
    /// The number of lifetimes of each entered binder, the innermost last.
    pub counts: Vec<u32>,
    /// What is to be visited, the next last.
    pub todo: Vec<Pending<'a>>,
}

impl<'a> Path<'a> {
    /// A visit with nothing to visit.
    fn new(alloc: Global) -> Path<'a>
        ensures inside { crossed result ≡ [] }
        ensures ahead { ahead result ≡ [] }
    {
        Path {
            counts: Vec::new(alloc),
            todo: Vec::new(alloc),
        }
    }

    /// Adds the part, which is visited next.
    fn push(&mut self, part: Part<'a>) -> Result<(), AllocError>
        ensures inside { crossed self.new ≡ crossed self.old }
        ensures ahead { PutsAhead (Pending.Visit part.entry ∷ []) self.old self.new result }
    {
        self.todo.extend_from_slice(&[Pending::Visit(part)])
    }

    /// Adds the two parts, which are visited next, in this order.
    fn push_both(&mut self, first: Part<'a>, second: Part<'a>) -> Result<(), AllocError>
        ensures inside { crossed self.new ≡ crossed self.old }
        ensures ahead { PutsAhead (Pending.Visit first.entry ∷ Pending.Visit second.entry ∷ []) self.old self.new result }
    {
        self.todo
            .extend_from_slice(&[Pending::Visit(second), Pending::Visit(first)])
    }

    /// Adds the part, which is visited next, below one more binder.
    fn push_bound(&mut self, count: u32, part: Part<'a>) -> Result<(), AllocError>
        ensures inside { MatchResult result (λ _. crossed self.new ≡ count ∷ crossed self.old) (λ _. crossed self.new ≡ crossed self.old) }
        ensures ahead { PutsAhead (Pending.Visit part.entry ∷ Pending.Leave ∷ []) self.old self.new result }
    {
        self.counts.extend_from_slice(&[count])?;
        match self
            .todo
            .extend_from_slice(&[Pending::Leave, Pending::Visit(part)])
        {
            Ok(()) => Ok(()),
            Err(refused) => {
                self.counts.pop();
                Err(refused)
            }
        }
    }
}

/// Visits these types by recursion.
fn see_each_ty<V: TypeVisitor>(
    cx: &Interner,
    visitor: &mut V,
    tys: &[Ty],
    binders: &Binders,
) -> ControlFlow<V::Break, ()>
    requires ready { V.ready visitor.old cx.now.entries }
    requires held { TysHeld cx.now.entries tys.now }
    ensures ready { V.ready visitor.new cx.now.entries }
    ensures visited { VisitsTerms V.sees cx.now.entries binders.now (tys_trees cx.now.entries tys.now) visitor.old visitor.new result }
{
    for ty in tys {
        match see_ty(cx, visitor, *ty, binders) {
            ControlFlow::Break(value) => return ControlFlow::Break(value),
            ControlFlow::Continue(()) => {}
        }
    }
    ControlFlow::Continue(())
}

/// Visits these arguments by recursion.
fn see_each_arg<V: TypeVisitor>(
    cx: &Interner,
    visitor: &mut V,
    args: &[GenericArgKind],
    binders: &Binders,
) -> ControlFlow<V::Break, ()>
    requires ready { V.ready visitor.old cx.now.entries }
    requires held { ArgsHeld cx.now.entries args.now }
    ensures ready { V.ready visitor.new cx.now.entries }
    ensures visited { VisitsTerms V.sees cx.now.entries binders.now (args_trees cx.now.entries args.now) visitor.old visitor.new result }
{
    for arg in args {
        match see_arg(cx, visitor, *arg, binders) {
            ControlFlow::Break(value) => return ControlFlow::Break(value),
            ControlFlow::Continue(()) => {}
        }
    }
    ControlFlow::Continue(())
}

/// Visits a part by recursion.
fn see_part<V: TypeVisitor>(
    cx: &Interner,
    visitor: &mut V,
    part: Part,
    binders: &Binders,
) -> ControlFlow<V::Break, ()>
    requires ready { V.ready visitor.old cx.now.entries }
    requires held { PartHeld cx.now.entries part }
    ensures ready { V.ready visitor.new cx.now.entries }
    ensures visited { VisitsTerms V.sees cx.now.entries binders.now (part_trees cx.now.entries part.entry) visitor.old visitor.new result }
{
    match part {
        Part::Arg(arg) => see_arg(cx, visitor, arg, binders),
        Part::Tys(tys) => see_each_ty(cx, visitor, tys, binders),
        Part::Args(args) => see_each_arg(cx, visitor, args, binders),
        Part::Bounds(bounds) => see_bounds(cx, visitor, bounds, binders),
    }
}

/// Adds the part to the visit, or visits it at once if memory is refused.
fn add<'a, V: TypeVisitor>(
    cx: &Interner,
    visitor: &mut V,
    part: Part<'a>,
    path: &mut Path<'a>,
    binders: &Binders,
) -> ControlFlow<V::Break, ()>
    requires ready { V.ready visitor.old cx.now.entries }
    requires held { PartHeld cx.now.entries part }
    requires path { AllHeld cx.now.entries (ahead path.old) }
    ensures ready { V.ready visitor.new cx.now.entries }
    ensures path { AllHeld cx.now.entries (ahead path.new) }
    ensures follows { GoesOn V.sees cx.now.entries binders.now (part_here part.entry) path.old visitor.old path.new visitor.new result }
{
    match path.push(part) {
        Ok(()) => ControlFlow::Continue(()),
        Err(_) => see_part(cx, visitor, part, &Binders::Listed(&path.counts, &*binders)),
    }
}

/// Adds the two parts to the visit, or visits them at once if memory is refused.
fn add_both<'a, V: TypeVisitor>(
    cx: &Interner,
    visitor: &mut V,
    first: Part<'a>,
    second: Part<'a>,
    path: &mut Path<'a>,
    binders: &Binders,
) -> ControlFlow<V::Break, ()>
    requires ready { V.ready visitor.old cx.now.entries }
    requires first { PartHeld cx.now.entries first }
    requires second { PartHeld cx.now.entries second }
    requires path { AllHeld cx.now.entries (ahead path.old) }
    ensures ready { V.ready visitor.new cx.now.entries }
    ensures path { AllHeld cx.now.entries (ahead path.new) }
    ensures follows { GoesOn V.sees cx.now.entries binders.now (both_here first.entry second.entry) path.old visitor.old path.new visitor.new result }
{
    match path.push_both(first, second) {
        Ok(()) => ControlFlow::Continue(()),
        Err(_) => {
            let around = Binders::Listed(&path.counts, &*binders);
            match see_part(cx, visitor, first, &around) {
                ControlFlow::Break(value) => ControlFlow::Break(value),
                ControlFlow::Continue(()) => see_part(cx, visitor, second, &around),
            }
        }
    }
}

/// Adds the part to the visit, below one more binder, or visits it at once if memory is refused.
fn add_bound<'a, V: TypeVisitor>(
    cx: &Interner,
    visitor: &mut V,
    count: u32,
    part: Part<'a>,
    path: &mut Path<'a>,
    binders: &Binders,
) -> ControlFlow<V::Break, ()>
    requires ready { V.ready visitor.old cx.now.entries }
    requires held { PartHeld cx.now.entries part }
    requires path { AllHeld cx.now.entries (ahead path.old) }
    ensures ready { V.ready visitor.new cx.now.entries }
    ensures path { AllHeld cx.now.entries (ahead path.new) }
    ensures follows { GoesOn V.sees cx.now.entries binders.now (bound_here count part.entry) path.old visitor.old path.new visitor.new result }
{
    match path.push_bound(count, part) {
        Ok(()) => ControlFlow::Continue(()),
        Err(_) => {
            let around = Binders::Listed(&path.counts, &*binders);
            see_part(cx, visitor, part, &Binders::Inside(count, &around))
        }
    }
}

/// Adds the children of a type to the visit.
fn enter<'a, V: TypeVisitor>(
    cx: &'a Interner,
    visitor: &mut V,
    ty: Ty,
    path: &mut Path<'a>,
    binders: &Binders,
) -> ControlFlow<V::Break, ()>
    requires ready { V.ready visitor.old cx.now.entries }
    requires held { Has cx.now.entries types ty.0 }
    requires path { AllHeld cx.now.entries (ahead path.old) }
    ensures ready { V.ready visitor.new cx.now.entries }
    ensures path { AllHeld cx.now.entries (ahead path.new) }
    ensures follows { GoesOn V.sees cx.now.entries binders.now (children_here ty.0) path.old visitor.old path.new visitor.new result }
{
    match cx.kind(ty) {
        TyKind::Adt(_, args) => add(cx, visitor, Part::Args(cx.args(args)), path, binders),
        TyKind::Ref(region, to, _) => {
            let region = Part::Arg(GenericArgKind::Lifetime(region));
            let to = Part::Arg(GenericArgKind::Ty(to));
            add_both(cx, visitor, region, to, path, binders)
        }
        TyKind::RawPtr(to, _) => {
            add(
                cx,
                visitor,
                Part::Arg(GenericArgKind::Ty(to)),
                path,
                binders,
            )
        }
        TyKind::Array(item, length) => {
            let item = Part::Arg(GenericArgKind::Ty(item));
            let length = Part::Arg(GenericArgKind::Const(length));
            add_both(cx, visitor, item, length, path, binders)
        }
        TyKind::Slice(item) => {
            add(
                cx,
                visitor,
                Part::Arg(GenericArgKind::Ty(item)),
                path,
                binders,
            )
        }
        TyKind::Tuple(items) => add(cx, visitor, Part::Tys(cx.tys(items)), path, binders),
        TyKind::FnPtr(count, tys) => {
            add_bound(cx, visitor, count, Part::Tys(cx.tys(tys)), path, binders)
        }
        TyKind::Dynamic(bounds, region) => {
            let region = Part::Arg(GenericArgKind::Lifetime(region));
            add_both(cx, visitor, Part::Bounds(bounds), region, path, binders)
        }
        _ => ControlFlow::Continue(()),
    }
}

/// Visits the node of a type, and adds its children to the visit if it is entered.
fn turn_ty<'a, V: TypeVisitor>(
    cx: &'a Interner,
    visitor: &mut V,
    ty: Ty,
    path: &mut Path<'a>,
    binders: &Binders,
) -> ControlFlow<V::Break, ()>
    requires ready { V.ready visitor.old cx.now.entries }
    requires held { Has cx.now.entries types ty.0 }
    requires path { AllHeld cx.now.entries (ahead path.old) }
    ensures ready { V.ready visitor.new cx.now.entries }
    ensures path { AllHeld cx.now.entries (ahead path.new) }
    ensures follows { GoesOn V.sees cx.now.entries binders.now (term_here ty.0) path.old visitor.old path.new visitor.new result }
{
    cx.lawful();
    match visitor.visit_ty(cx, ty, &Binders::Listed(&path.counts, &*binders)) {
        Seen::Break(value) => ControlFlow::Break(value),
        Seen::Pass => ControlFlow::Continue(()),
        Seen::Enter => enter(cx, visitor, ty, path, binders),
    }
}

/// Visits the bounds of a `dyn`, and adds the arguments of the principal to the visit.
fn turn_bounds<'a, V: TypeVisitor>(
    cx: &'a Interner,
    visitor: &mut V,
    bounds: Bounds,
    path: &mut Path<'a>,
    binders: &Binders,
) -> ControlFlow<V::Break, ()>
    requires ready { V.ready visitor.old cx.now.entries }
    requires held { PartHeld cx.now.entries (Part.Bounds bounds) }
    requires path { AllHeld cx.now.entries (ahead path.old) }
    ensures ready { V.ready visitor.new cx.now.entries }
    ensures path { AllHeld cx.now.entries (ahead path.new) }
    ensures follows { GoesOn V.sees cx.now.entries binders.now (term_here bounds.0) path.old visitor.old path.new visitor.new result }
{
    match cx.bounds(bounds).principal {
        Some(principal) => {
            let args = Part::Args(cx.args(principal.args));
            add_bound(cx, visitor, principal.bound_vars, args, path, binders)
        }
        None => ControlFlow::Continue(()),
    }
}

/// Adds these types to the visit: the first one, and then the rest.
fn turn_tys<'a, V: TypeVisitor>(
    cx: &Interner,
    visitor: &mut V,
    tys: &'a [Ty],
    path: &mut Path<'a>,
    binders: &Binders,
) -> ControlFlow<V::Break, ()>
    requires ready { V.ready visitor.old cx.now.entries }
    requires held { TysHeld cx.now.entries tys.now }
    requires path { AllHeld cx.now.entries (ahead path.old) }
    ensures ready { V.ready visitor.new cx.now.entries }
    ensures path { AllHeld cx.now.entries (ahead path.new) }
    ensures follows { GoesOn V.sees cx.now.entries binders.now (part_here (Part.Tys tys.entry)) path.old visitor.old path.new visitor.new result }
{
    match tys {
        [] => ControlFlow::Continue(()),
        [first, rest @ ..] => {
            let first = Part::Arg(GenericArgKind::Ty(*first));
            add_both(cx, visitor, first, Part::Tys(rest), path, binders)
        }
    }
}

/// Adds these arguments to the visit: the first one, and then the rest.
fn turn_args<'a, V: TypeVisitor>(
    cx: &Interner,
    visitor: &mut V,
    args: &'a [GenericArgKind],
    path: &mut Path<'a>,
    binders: &Binders,
) -> ControlFlow<V::Break, ()>
    requires ready { V.ready visitor.old cx.now.entries }
    requires held { ArgsHeld cx.now.entries args.now }
    requires path { AllHeld cx.now.entries (ahead path.old) }
    ensures ready { V.ready visitor.new cx.now.entries }
    ensures path { AllHeld cx.now.entries (ahead path.new) }
    ensures follows { GoesOn V.sees cx.now.entries binders.now (part_here (Part.Args args.entry)) path.old visitor.old path.new visitor.new result }
{
    match args {
        [] => ControlFlow::Continue(()),
        [first, rest @ ..] => {
            add_both(
                cx,
                visitor,
                Part::Arg(*first),
                Part::Args(rest),
                path,
                binders,
            )
        }
    }
}

/// Visits the node of a part, and adds what is below it to the visit.
fn turn<'a, V: TypeVisitor>(
    cx: &'a Interner,
    visitor: &mut V,
    part: Part<'a>,
    path: &mut Path<'a>,
    binders: &Binders,
) -> ControlFlow<V::Break, ()>
    requires ready { V.ready visitor.old cx.now.entries }
    requires held { PartHeld cx.now.entries part }
    requires path { AllHeld cx.now.entries (ahead path.old) }
    ensures ready { V.ready visitor.new cx.now.entries }
    ensures path { AllHeld cx.now.entries (ahead path.new) }
    ensures follows { GoesOn V.sees cx.now.entries binders.now (part_here part.entry) path.old visitor.old path.new visitor.new result }
{
    match part {
        Part::Arg(GenericArgKind::Ty(ty)) => turn_ty(cx, visitor, ty, path, binders),
        Part::Arg(arg) => see_arg(cx, visitor, arg, &Binders::Listed(&path.counts, &*binders)),
        Part::Tys(tys) => turn_tys(cx, visitor, tys, path, binders),
        Part::Args(args) => turn_args(cx, visitor, args, path, binders),
        Part::Bounds(bounds) => turn_bounds(cx, visitor, bounds, path, binders),
    }
}

/// Visits what is to be visited.
fn run<'a, V: TypeVisitor>(
    cx: &'a Interner,
    visitor: &mut V,
    mut path: Path<'a>,
    binders: &Binders,
) -> ControlFlow<V::Break, ()>
    requires ready { V.ready visitor.old cx.now.entries }
    requires path { AllHeld cx.now.entries (ahead path) }
    ensures ready { V.ready visitor.new cx.now.entries }
    ensures visited { VisitsPieces V.sees cx.now.entries binders.now (path_pieces cx.now.entries path.entry) visitor.old visitor.new result }
{
    for _ in 0..u64::MAX {
        match path.todo.pop() {
            None => return ControlFlow::Continue(()),
            Some(Pending::Leave) => {
                path.counts.pop();
            }
            Some(Pending::Visit(part)) => match turn(cx, visitor, part, &mut path, binders) {
                ControlFlow::Break(value) => return ControlFlow::Break(value),
                ControlFlow::Continue(()) => {}
            },
        }
    }
    see_rest(cx, visitor, path, binders)
}

/// Visits what is to be visited, each part by recursion.
fn see_rest<V: TypeVisitor>(
    cx: &Interner,
    visitor: &mut V,
    mut path: Path,
    binders: &Binders,
) -> ControlFlow<V::Break, ()>
    requires ready { V.ready visitor.old cx.now.entries }
    requires path { AllHeld cx.now.entries (ahead path) }
    ensures ready { V.ready visitor.new cx.now.entries }
    ensures visited { VisitsPieces V.sees cx.now.entries binders.now (path_pieces cx.now.entries path.entry) visitor.old visitor.new result }
{
    while let Some(next) = path.todo.pop() {
        match next {
            Pending::Leave => {
                path.counts.pop();
            }
            Pending::Visit(part) => {
                match see_part(cx, visitor, part, &Binders::Listed(&path.counts, &*binders)) {
                    ControlFlow::Break(value) => return ControlFlow::Break(value),
                    ControlFlow::Continue(()) => {}
                }
            }
        }
    }
    ControlFlow::Continue(())
}

/// Visits a part of a term: by recursion, or by a list in memory if it is deeper than 128 levels.
pub(crate) fn visit_part<V: TypeVisitor>(
    cx: &Interner,
    visitor: &mut V,
    part: Part,
    depth: u32,
    binders: &Binders,
) -> ControlFlow<V::Break, ()>
    requires ready { V.ready visitor.old cx.now.entries }
    requires held { PartHeld cx.now.entries part }
    ensures ready { V.ready visitor.new cx.now.entries }
    ensures visited { VisitsTerms V.sees cx.now.entries binders.now (part_trees cx.now.entries part.entry) visitor.old visitor.new result }
{
    if depth <= SHALLOW {
        return see_part(cx, visitor, part, binders);
    }
    let mut path = Path::new(cx.allocator());
    match path.push(part) {
        Ok(()) => run(cx, visitor, path, binders),
        Err(_) => see_part(cx, visitor, part, binders),
    }
}

/// Visits the children of a type.
pub(crate) fn visit_below<V: TypeVisitor>(
    cx: &Interner,
    visitor: &mut V,
    ty: Ty,
    binders: &Binders,
) -> ControlFlow<V::Break, ()>
    requires ready { V.ready visitor.old cx.now.entries }
    requires held { Has cx.now.entries types ty.0 }
    ensures ready { V.ready visitor.new cx.now.entries }
    ensures visited { VisitsBelow (V.sees cx.now.entries) (counts_of binders.now) (trees_at cx.now.entries ty.0) visitor.old visitor.new (break_value result) }
{
    if cx.depth(ty) <= SHALLOW {
        return see_below(cx, visitor, ty, binders);
    }
    cx.lawful();
    let mut path = Path::new(cx.allocator());
    match enter(cx, visitor, ty, &mut path, binders) {
        ControlFlow::Break(value) => ControlFlow::Break(value),
        ControlFlow::Continue(()) => run(cx, visitor, path, binders),
    }
}
