//! Facts for proofs. These functions do nothing at run time.
ghost use Rattle.indexmap.specs.IndexMap.{IsUnique};
ghost use Rattle.type_terms.specs.Promised.Handles.{Is, Has, types, consts};
ghost use Rattle.type_terms.specs.Kinds.{kind_trees, const_trees};
ghost use Rattle.type_terms.specs.declared.kinds.TyKind.{TyKind};
ghost use Rattle.type_terms.specs.declared.kinds.ConstKind.{ConstKind};

use crate::terms::{Term, TermVid};
use indexmap::IndexMap;
use type_terms::interner::Interner;
use type_terms::kinds::{Const, Ty};

/// No variable has two values in a map.
pub(crate) fn one_value_each(values: &IndexMap<TermVid, Term>)
    ensures { IsUnique ⟦<TermVid as PartialEq>⟧.eq values.now }
{
    let _ = values.len();
}

/// The tree of a type is that of some kind.
pub(crate) fn type_has_kind(cx: &Interner, ty: Ty)
    requires { Has cx.now.entries types ty.0 }
    ensures { (kind : TyKind) × Is cx.now.entries types ty.0 (kind_trees cx.now.entries kind) }
{
    let _ = cx.kind(ty);
}

/// The tree of a constant is that of some kind.
pub(crate) fn const_has_kind(cx: &Interner, constant: Const)
    requires { Has cx.now.entries consts constant.0 }
    ensures { (kind : ConstKind) × Is cx.now.entries consts constant.0 (const_trees kind) }
{
    let _ = cx.const_kind(constant);
}
