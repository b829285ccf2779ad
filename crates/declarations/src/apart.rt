//! Whether the arguments of an impl's header are disjoint from those of a trait reference. Such an impl is passed over.
ghost use Rattle.std.specs.Prelude.{◌≡◌, ◌≢◌, ℕ, suc, ◌&&◌, ◌||◌, List};
ghost use Rattle.type_terms.specs.Promised.Handles.{Entry, Has, types, consts, bounds_lists, trees_at};
ghost use Rattle.type_terms.specs.Terms.{args_lists};
ghost use Rattle.type_terms.specs.Promised.Handles.{ArgHeld, ArgsHeld, arg_trees};
ghost use Rattle.type_terms.specs.Kinds.{TysHeld, PrincipalHeld, args_trees, tys_trees, principal_trees};
ghost use Rattle.term_folds.specs.Arguments.{arg_sort};
ghost use Rattle.declarations.specs.Apart.{is_fixed, are_apart, may_meet};
ghost use Rattle.declarations.specs.Heads.{head_of};
ghost use Rattle.declarations.specs.Tops.{top_is_open, is_some_head, PartsHeld, left_parts, right_parts, TopsHeld, meet_below, tell};

use crate::simplify::simplify_type;
use type_terms::interner::Interner;
use type_terms::kinds::{
    Bounds, Const, ConstKind, GenericArgKind, GenericArgs, Principal, Ty, TyKind, Tys,
};
use type_terms::region::RegionKind;

/// How many levels of two lists are compared.
const LEVELS: u32 = 9;

/// The parts of two types with one head: those of the left one, and then those of the right one.
#[derive(Clone, Copy)]
enum Parts {
    /// The `T` of `&T`, `*const T` and `[T]`, without lifetimes.
    Inner(Ty, Ty),
    /// The elements and the lengths of `[T; N]`.
    Array(Ty, Const, Ty, Const),
    /// The arguments of a struct.
    Args(GenericArgs, GenericArgs),
    /// The items of a tuple, or the inputs and the output of a `fn` pointer.
    Items(Tys, Tys),
    /// The bounds of a `dyn` type.
    Bounds(Bounds, Bounds),
}

/// Whether two types, or the bounds of two `dyn` types, can become one, as far as their outermost nodes tell.
#[derive(Clone, Copy)]
enum Tops {
    /// They can, whatever is below.
    MayMeet,
    /// They cannot.
    Differ,
    /// They can if their parts can.
    Parts(Parts),
}

/// Whether the arguments have no open node and no lifetime. Their flags tell, so no type is visited.
pub(crate) fn is_fixed(cx: &Interner, args: GenericArgs) -> bool
    requires { Has cx.now.entries args_lists args.0 }
    ensures { result ≡ is_fixed (trees_at cx.now.entries args.0) }
{
    cx.flags(args).0 == 0
}

/// Whether both lists are fixed.
fn are_fixed(cx: &Interner, left: GenericArgs, right: GenericArgs) -> bool
    requires left { Has cx.now.entries args_lists left.0 }
    requires right { Has cx.now.entries args_lists right.0 }
    ensures { result ≡ (is_fixed (trees_at cx.now.entries left.0) && is_fixed (trees_at cx.now.entries right.0)) }
{
    is_fixed(cx, left) && is_fixed(cx, right)
}

/// Whether an argument is a parameter, an inference variable, a placeholder or bound.
fn is_open(cx: &Interner, arg: GenericArgKind) -> bool
    requires { ArgHeld cx.now.entries arg }
    ensures { result ≡ top_is_open (arg_trees cx.now.entries arg) }
{
    cx.lawful();
    match arg {
        GenericArgKind::Lifetime(region) => match region.kind {
            RegionKind::ReStatic => false,
            _ => true,
        },
        GenericArgKind::Ty(ty) => match simplify_type(cx, ty) {
            Some(_) => false,
            None => true,
        },
        GenericArgKind::Const(value) => match cx.const_kind(value) {
            ConstKind::Value(_) => false,
            _ => true,
        },
    }
}

/// Whether two arguments of different kinds can become one: only if one of them is open.
fn unlike_may_meet(cx: &Interner, left: GenericArgKind, right: GenericArgKind) -> bool
    requires left { ArgHeld cx.now.entries left }
    requires right { ArgHeld cx.now.entries right }
    requires sorts { arg_sort left ≢ arg_sort right }
    ensures { (n : ℕ) → result ≡ may_meet (suc n) (arg_trees cx.now.entries left) (arg_trees cx.now.entries right) }
{
    cx.lawful();
    is_open(cx, left) || is_open(cx, right)
}

/// Whether two constants can become one: not if they are two numbers.
fn consts_may_meet(cx: &Interner, left: Const, right: Const) -> bool
    requires left { Has cx.now.entries consts left.0 }
    requires right { Has cx.now.entries consts right.0 }
    ensures { (n : ℕ) → result ≡ may_meet (suc n) (trees_at cx.now.entries left.0) (trees_at cx.now.entries right.0) }
{
    let right_kind = cx.const_kind(right);
    match cx.const_kind(left) {
        ConstKind::Value(first) => match right_kind {
            ConstKind::Value(second) => first == second,
            _ => true,
        },
        _ => true,
    }
}

/// The parts of two types with one head.
fn parts_of(cx: &Interner, left: Ty, right: Ty) -> Tops
    requires left { Has cx.now.entries types left.0 }
    requires right { Has cx.now.entries types right.0 }
    requires heads { head_of (trees_at cx.now.entries left.0) ≡ head_of (trees_at cx.now.entries right.0) }
    requires head { is_some_head (head_of (trees_at cx.now.entries left.0)) }
    ensures held { TopsHeld cx.now.entries result }
    ensures tell { tell cx.now.entries result (trees_at cx.now.entries left.0) (trees_at cx.now.entries right.0) }
{
    cx.lawful();
    match cx.kind(left) {
        TyKind::Adt(_, first) => match cx.kind(right) {
            TyKind::Adt(_, second) => Tops::Parts(Parts::Args(first, second)),
            _ => unreachable!(),
        },
        TyKind::Ref(_, first, _) => match cx.kind(right) {
            TyKind::Ref(_, second, _) => Tops::Parts(Parts::Inner(first, second)),
            _ => unreachable!(),
        },
        TyKind::RawPtr(first, _) => match cx.kind(right) {
            TyKind::RawPtr(second, _) => Tops::Parts(Parts::Inner(first, second)),
            _ => unreachable!(),
        },
        TyKind::Slice(first) => match cx.kind(right) {
            TyKind::Slice(second) => Tops::Parts(Parts::Inner(first, second)),
            _ => unreachable!(),
        },
        TyKind::Array(first, length) => match cx.kind(right) {
            TyKind::Array(second, other_length) => {
                Tops::Parts(Parts::Array(first, length, second, other_length))
            }
            _ => unreachable!(),
        },
        TyKind::Tuple(first) => match cx.kind(right) {
            TyKind::Tuple(second) => Tops::Parts(Parts::Items(first, second)),
            _ => unreachable!(),
        },
        TyKind::FnPtr(_, first) => match cx.kind(right) {
            TyKind::FnPtr(_, second) => Tops::Parts(Parts::Items(first, second)),
            _ => unreachable!(),
        },
        TyKind::Dynamic(first, _) => match cx.kind(right) {
            TyKind::Dynamic(second, _) => Tops::Parts(Parts::Bounds(first, second)),
            _ => unreachable!(),
        },
        _ => Tops::MayMeet,
    }
}

/// Compares the outermost nodes of two types.
fn compare_tops(cx: &Interner, left: Ty, right: Ty) -> Tops
    requires left { Has cx.now.entries types left.0 }
    requires right { Has cx.now.entries types right.0 }
    ensures held { TopsHeld cx.now.entries result }
    ensures tell { tell cx.now.entries result (trees_at cx.now.entries left.0) (trees_at cx.now.entries right.0) }
{
    cx.lawful();
    if left == right {
        return Tops::MayMeet;
    }
    match simplify_type(cx, left) {
        Some(first) => match simplify_type(cx, right) {
            Some(second) => {
                if first == second {
                    parts_of(cx, left, right)
                } else {
                    Tops::Differ
                }
            }
            None => Tops::MayMeet,
        },
        None => Tops::MayMeet,
    }
}

/// Compares the principal traits of two `dyn` types. They differ if they are two traits or one is missing. Otherwise their arguments
/// remain to be compared. How many lifetimes they bind does not matter.
fn compare_principals(left: Option<Principal>, right: Option<Principal>) -> Tops
    ensures held { (es : List Entry) → PrincipalHeld es left → PrincipalHeld es right → TopsHeld es result }
    ensures tell { (es : List Entry) → tell es result (principal_trees es left) (principal_trees es right) }
{
    match left {
        Some(first) => match right {
            Some(second) => {
                if first.def_id == second.def_id {
                    Tops::Parts(Parts::Args(first.args, second.args))
                } else {
                    Tops::Differ
                }
            }
            None => Tops::Differ,
        },
        None => match right {
            Some(_) => Tops::Differ,
            None => Tops::MayMeet,
        },
    }
}

/// Compares the bounds of two `dyn` types. They differ if their auto traits do. Otherwise their principal traits decide.
fn compare_bounds(cx: &Interner, left: Bounds, right: Bounds) -> Tops
    requires left { Has cx.now.entries bounds_lists left.0 }
    requires right { Has cx.now.entries bounds_lists right.0 }
    ensures held { TopsHeld cx.now.entries result }
    ensures tell { tell cx.now.entries result (trees_at cx.now.entries left.0) (trees_at cx.now.entries right.0) }
{
    let first = cx.bounds(left);
    let second = cx.bounds(right);
    if first.autos == second.autos {
        compare_principals(first.principal, second.principal)
    } else {
        Tops::Differ
    }
}

/// Whether two types can become one, as far as their outermost nodes and so many levels below tell.
#[cycle(meeting)]
fn types_may_meet(cx: &Interner, left: Ty, right: Ty, levels_below: u32) -> bool
    requires left { Has cx.now.entries types left.0 }
    requires right { Has cx.now.entries types right.0 }
    ensures { result ≡ may_meet (suc levels_below) (trees_at cx.now.entries left.0) (trees_at cx.now.entries right.0) }
{
    tops_may_meet(cx, compare_tops(cx, left, right), levels_below)
}

/// Whether two compared types or bounds can become one, as far as so many further levels tell.
#[cycle(meeting)]
fn tops_may_meet(cx: &Interner, tops: Tops, levels_below: u32) -> bool
    requires { TopsHeld cx.now.entries tops }
    ensures { result ≡ meet_below cx.now.entries tops levels_below }
{
    match tops {
        Tops::MayMeet => true,
        Tops::Differ => false,
        Tops::Parts(parts) => {
            if levels_below == 0 {
                true
            } else {
                parts_may_meet(cx, parts, levels_below - 1)
            }
        }
    }
}

/// Whether the parts of two types can become one.
#[cycle(meeting)]
fn parts_may_meet(cx: &Interner, parts: Parts, levels_below: u32) -> bool
    requires { PartsHeld cx.now.entries parts }
    ensures { result ≡ may_meet (suc levels_below) (left_parts cx.now.entries parts) (right_parts cx.now.entries parts) }
{
    cx.lawful();
    match parts {
        Parts::Inner(left, right) => types_may_meet(cx, left, right, levels_below),
        Parts::Array(left, length, right, other_length) => {
            if consts_may_meet(cx, length, other_length) {
                types_may_meet(cx, left, right, levels_below)
            } else {
                false
            }
        }
        Parts::Args(left, right) => args_may_meet(cx, cx.args(left), cx.args(right), levels_below),
        Parts::Items(left, right) => tys_may_meet(cx, cx.tys(left), cx.tys(right), levels_below),
        Parts::Bounds(left, right) => {
            tops_may_meet(cx, compare_bounds(cx, left, right), levels_below)
        }
    }
}

/// Whether each argument can become the other at its position, and none remains.
#[cycle(meeting)]
fn args_may_meet(
    cx: &Interner,
    left: &[GenericArgKind],
    right: &[GenericArgKind],
    levels_below: u32,
) -> bool
    requires left { ArgsHeld cx.now.entries left.now }
    requires right { ArgsHeld cx.now.entries right.now }
    ensures { result ≡ may_meet (suc levels_below) (args_trees cx.now.entries left.now) (args_trees cx.now.entries right.now) }
{
    cx.lawful();
    let mut left_rest = left;
    let mut right_rest = right;
    'pairs: while let Some((first, left_others)) = left_rest.split_first() {
        let Some((second, right_others)) = right_rest.split_first() else {
            return false;
        };
        if !arg_may_meet(cx, *first, *second, levels_below) {
            return false;
        }
        left_rest = left_others;
        right_rest = right_others;
    }
    right_rest.is_empty()
}

/// Whether two arguments can become one.
#[cycle(meeting)]
fn arg_may_meet(
    cx: &Interner,
    left: GenericArgKind,
    right: GenericArgKind,
    levels_below: u32,
) -> bool
    requires left { ArgHeld cx.now.entries left }
    requires right { ArgHeld cx.now.entries right }
    ensures { result ≡ may_meet (suc levels_below) (arg_trees cx.now.entries left) (arg_trees cx.now.entries right) }
{
    match left {
        GenericArgKind::Lifetime(_) => match right {
            GenericArgKind::Lifetime(_) => true,
            _ => unlike_may_meet(cx, left, right),
        },
        GenericArgKind::Ty(first) => match right {
            GenericArgKind::Ty(second) => types_may_meet(cx, first, second, levels_below),
            _ => unlike_may_meet(cx, left, right),
        },
        GenericArgKind::Const(first) => match right {
            GenericArgKind::Const(second) => consts_may_meet(cx, first, second),
            _ => unlike_may_meet(cx, left, right),
        },
    }
}

/// Whether each type can become the other at its position, and none remains.
#[cycle(meeting)]
fn tys_may_meet(cx: &Interner, left: &[Ty], right: &[Ty], levels_below: u32) -> bool
    requires left { TysHeld cx.now.entries left.now }
    requires right { TysHeld cx.now.entries right.now }
    ensures { result ≡ may_meet (suc levels_below) (tys_trees cx.now.entries left.now) (tys_trees cx.now.entries right.now) }
{
    cx.lawful();
    let mut left_items = left;
    let mut right_items = right;
    'items: while let Some((first, left_others)) = left_items.split_first() {
        let Some((second, right_others)) = right_items.split_first() else {
            return false;
        };
        if !types_may_meet(cx, *first, *second, levels_below) {
            return false;
        }
        left_items = left_others;
        right_items = right_others;
    }
    right_items.is_empty()
}

/// Whether two lists of arguments are disjoint: an impl whose header has one list cannot match a trait reference with the other.
/// They are if both are fixed and differ, or if their first levels differ. `V<[T]>` and `V<&u8>` are disjoint. So are `u8, T` and
/// `u16, ?x`, whatever `T` and `?x` become. `V<T, T>` and `V<u8, u16>` are not found to be, as each position is compared by itself.
///
/// It takes no memory. It looks at nine levels, so at the lengths and constants in types of the eighth, as `DeepRejectCtxt` of the
/// original does. That one also compares placeholders and parameters of the goal. The bounds of a `dyn` type are one level, and
/// their arguments the next.
pub fn are_apart(cx: &Interner, left: GenericArgs, right: GenericArgs) -> bool
    requires left { Has cx.now.entries args_lists left.0 }
    requires right { Has cx.now.entries args_lists right.0 }
    ensures { result ≡ are_apart (trees_at cx.now.entries left.0) (trees_at cx.now.entries right.0) }
{
    cx.lawful();
    if left == right {
        return false;
    }
    if are_fixed(cx, left, right) {
        return true;
    }
    !args_may_meet(cx, cx.args(left), cx.args(right), LEVELS - 1)
}
