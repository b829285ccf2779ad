//! Terms that are made in a session. The contexts of the session rest.

ghost use Rattle.std.specs.Prelude.{◌≡◌, Err, IfErr, IfOk, IfSome, IsOk, OnOk, is_some};
ghost use Rattle.std.specs.Option.{option_map};
ghost use Rattle.type_terms.specs.Growth.{FullAtLimit};
ghost use Rattle.type_terms.specs.Kinds.{ConstHeld, KindHeld, args_trees, const_trees, kind_trees};
ghost use Rattle.type_terms.specs.Promised.Handles.{ArgHeld, ArgsHeld, Is, arg_trees, consts, types};
ghost use Rattle.type_terms.specs.Promised.Label.{of_const, of_type, placeholder, value};
ghost use Rattle.type_terms.specs.Promised.Trees.{leaf};
ghost use Rattle.type_terms.specs.Terms.{args_lists};
ghost use Rattle.solver_graph.specs.Contexts.{Advances, IsReady};
ghost use Rattle.sessions.specs.Promised.Shortages.{SessionFullAtLimit};
ghost use Rattle.sessions.specs.Promised.Subjects.{StaysOn};
ghost use Rattle.session_inference.specs.Contexts.{LetsRest};
ghost use Rattle.session_inference.specs.Primitives.{primitive_trees};
ghost use Rattle.session_inference.specs.Shapes.{shaped_trees, takes};

use crate::primitive::{Primitive, kind_of};
use crate::shape::{Shape, shaped};
use goal_frames::GoalHandler;
use sessions::Session;
use solver_graph::{SolverCx, context_laws};
use type_terms::Fault;
use type_terms::kinds::{Const, ConstKind, GenericArgKind, GenericArgs, Ty, TyKind};

/// A type that was made, as a term.
pub(crate) fn type_made(made: Result<Ty, Fault>) -> Result<GenericArgKind, Fault>
    ensures ok { IfOk result (λ a. IfOk made (λ t. a ≡ GenericArgKind.Ty t)) }
    ensures both { OnOk result (IsOk made) }
    ensures fault { IfErr result (λ e. made ≡ Err e) }
{
    match made {
        Ok(ty) => Ok(GenericArgKind::Ty(ty)),
        Err(fault) => Err(fault),
    }
}

/// A constant that was made, as a term.
pub(crate) fn const_made(made: Result<Const, Fault>) -> Result<GenericArgKind, Fault>
    ensures ok { IfOk result (λ a. IfOk made (λ t. a ≡ GenericArgKind.Const t)) }
    ensures both { OnOk result (IsOk made) }
    ensures fault { IfErr result (λ e. made ≡ Err e) }
{
    match made {
        Ok(constant) => Ok(GenericArgKind::Const(constant)),
        Err(fault) => Err(fault),
    }
}

/// The list of these arguments.
pub(crate) fn args_in<H: GoalHandler>(
    cx: &mut SolverCx<H>,
    args: Vec<GenericArgKind>,
) -> Result<GenericArgs, Fault>
    requires ready { IsReady H.meaning.IsReady cx.old }
    requires held { ArgsHeld cx.old.interner.entries args.items }
    ensures advances { Advances H.meaning.IsReady cx.old cx.new }
    ensures is { IfOk result (λ a. Is cx.new.interner.entries args_lists a.0 (args_trees cx.old.interner.entries args.items)) }
    ensures full { IfErr result (FullAtLimit cx.new.interner) }
{
    context_laws::<H>();
    let made = cx.interner.mk_args(args);
    cx.interner.lawful();
    made
}

/// The type of this kind.
fn ty_in<H: GoalHandler>(cx: &mut SolverCx<H>, kind: TyKind) -> Result<Ty, Fault>
    requires ready { IsReady H.meaning.IsReady cx.old }
    requires held { KindHeld cx.old.interner.entries kind }
    ensures advances { Advances H.meaning.IsReady cx.old cx.new }
    ensures is { IfOk result (λ t. Is cx.new.interner.entries types t.0 (kind_trees cx.old.interner.entries kind)) }
    ensures full { IfErr result (FullAtLimit cx.new.interner) }
{
    context_laws::<H>();
    let made = cx.interner.mk_ty(kind);
    cx.interner.lawful();
    made
}

/// The constant of this kind.
fn const_in<H: GoalHandler>(cx: &mut SolverCx<H>, kind: ConstKind) -> Result<Const, Fault>
    requires ready { IsReady H.meaning.IsReady cx.old }
    requires held { ConstHeld kind }
    ensures advances { Advances H.meaning.IsReady cx.old cx.new }
    ensures is { IfOk result (λ t. Is cx.new.interner.entries consts t.0 (const_trees kind)) }
    ensures full { IfErr result (FullAtLimit cx.new.interner) }
{
    context_laws::<H>();
    let made = cx.interner.mk_const(kind);
    cx.interner.lawful();
    made
}

/// The type without parts.
pub(crate) fn primitive_type(
    session: &mut Session<'_>,
    primitive: Primitive,
) -> Result<GenericArgKind, Fault>
    ensures stays { StaysOn session.old session.new }
    ensures rests { LetsRest session.old session.new }
    ensures is { IfOk result (λ a. (arg_trees session.new.terms a ≡ primitive_trees primitive) × ArgHeld session.new.terms a) }
    ensures full { IfErr result (SessionFullAtLimit session.new) }
{
    type_made(ty_in(&mut session.search.cx, kind_of(primitive)))
}

/// The constant with this number as its value.
pub(crate) fn value_constant(
    session: &mut Session<'_>,
    number: u64,
) -> Result<GenericArgKind, Fault>
    ensures stays { StaysOn session.old session.new }
    ensures rests { LetsRest session.old session.new }
    ensures is { IfOk result (λ a. (arg_trees session.new.terms a ≡ leaf (value number)) × ArgHeld session.new.terms a) }
    ensures full { IfErr result (SessionFullAtLimit session.new) }
{
    const_made(const_in(&mut session.search.cx, ConstKind::Value(number)))
}

/// The type that is this parameter of the function whose types are inferred.
pub(crate) fn placeholder_type(
    session: &mut Session<'_>,
    number: u32,
) -> Result<GenericArgKind, Fault>
    ensures stays { StaysOn session.old session.new }
    ensures rests { LetsRest session.old session.new }
    ensures is { IfOk result (λ a. (arg_trees session.new.terms a ≡ leaf (placeholder of_type number)) × ArgHeld session.new.terms a) }
    ensures full { IfErr result (SessionFullAtLimit session.new) }
{
    type_made(ty_in(&mut session.search.cx, TyKind::Placeholder(number)))
}

/// The constant that is this parameter.
pub(crate) fn placeholder_constant(
    session: &mut Session<'_>,
    number: u32,
) -> Result<GenericArgKind, Fault>
    ensures stays { StaysOn session.old session.new }
    ensures rests { LetsRest session.old session.new }
    ensures is { IfOk result (λ a. (arg_trees session.new.terms a ≡ leaf (placeholder of_const number)) × ArgHeld session.new.terms a) }
    ensures full { IfErr result (SessionFullAtLimit session.new) }
{
    const_made(const_in(&mut session.search.cx, ConstKind::Placeholder(number)))
}

/// The type of this shape with these parts, over the interner of a context. `None` if the shape takes others.
fn shaped_in<H: GoalHandler>(
    cx: &mut SolverCx<H>,
    shape: Shape,
    parts: Vec<GenericArgKind>,
) -> Result<Option<Ty>, Fault>
    requires ready { IsReady H.meaning.IsReady cx.old }
    requires held { ArgsHeld cx.old.interner.entries parts.items }
    ensures advances { Advances H.meaning.IsReady cx.old cx.new }
    ensures is { IfOk result (λ o. IfSome o (λ t.
        Is cx.new.interner.entries types t.0 (shaped_trees shape (args_trees cx.old.interner.entries parts.items)))) }
    ensures takes { IfOk result (λ o. is_some o ≡ takes shape parts.items) }
    ensures full { IfErr result (FullAtLimit cx.new.interner) }
{
    context_laws::<H>();
    let made = shaped(cx.alloc, &mut cx.interner, shape, parts);
    cx.interner.lawful();
    made
}

/// A type that was made if a shape takes its parts, as a term.
fn shaped_made(made: Result<Option<Ty>, Fault>) -> Result<Option<GenericArgKind>, Fault>
    ensures ok { IfOk result (λ o. IfOk made (λ m. o ≡ option_map GenericArgKind.Ty m)) }
    ensures both { OnOk result (IsOk made) }
    ensures fault { IfErr result (λ e. made ≡ Err e) }
{
    match made {
        Ok(None) => Ok(None),
        Ok(Some(ty)) => Ok(Some(GenericArgKind::Ty(ty))),
        Err(fault) => Err(fault),
    }
}

/// The type of this shape with these parts, as a term. `None` if the shape takes others.
pub(crate) fn shaped_type(
    session: &mut Session<'_>,
    shape: Shape,
    parts: Vec<GenericArgKind>,
) -> Result<Option<GenericArgKind>, Fault>
    requires { ArgsHeld session.old.terms parts.items }
    ensures stays { StaysOn session.old session.new }
    ensures rests { LetsRest session.old session.new }
    ensures is { IfOk result (λ o. IfSome o (λ a. (arg_trees session.new.terms a
        ≡ shaped_trees shape (args_trees session.old.terms parts.items)) × ArgHeld session.new.terms a)) }
    ensures takes { IfOk result (λ o. is_some o ≡ takes shape parts.items) }
    ensures full { IfErr result (SessionFullAtLimit session.new) }
{
    shaped_made(shaped_in(&mut session.search.cx, shape, parts))
}
