//! Parameters that unsize a struct.
ghost use Rattle.std.specs.Prelude.{◌≡◌, ℕ, map, IfErr, IfOk};
ghost use Rattle.type_terms.specs.Promised.Trees.{some_node};
ghost use Rattle.type_terms.specs.Promised.Rules.{is_parameter, is_unsizing};
ghost use Rattle.type_terms.specs.Promised.Handles.{Has, types, trees_at};
ghost use Rattle.type_terms.specs.declared.Fault.TheVariants.{Memory};
ghost use Rattle.declarations.specs.Promised.Elaboration.{Each};
ghost use Rattle.declarations.specs.Unsizing.{unsizing_flags, field_trees};

use std::alloc::Global;
use std::ops::ControlFlow;
use type_terms::Fault;
use type_terms::binders::Binders;
use type_terms::interner::Interner;
use type_terms::kinds::{Const, ConstKind, Ty, TyKind};
use type_terms::region::Region;
use type_terms::visit::{Seen, TypeVisitor};
use type_terms::visitable::TypeVisitable;

/// Looks for the type or const parameter with this number.
#[derive(Clone, Copy)]
pub(crate) struct ParamFinder {
    pub index: usize,
}

impl TypeVisitor for ParamFinder {
    type Break = ();

    ghost use Rattle.std.specs.Prelude.{◌≡◌, refl};
    ghost use Rattle.declarations.specs.Unsizing.{looked_for, bounds-are-entered};

    ghost ready = { λ _ _. Unit {0} };

    ghost sees = { λ _ _ t v w a. (w ≡ v) × (a ≡ looked_for v.index t) };

    ghost enters_bounds = { λ v _ _ t h. (refl, bounds-are-entered v.index t h) };

    fn visit_ty(&mut self, cx: &Interner, ty: Ty, _binders: &Binders) -> Seen<()> {
        match cx.kind(ty) {
            TyKind::Param(index) => {
                if self.index == index as usize {
                    Seen::Break(())
                } else {
                    Seen::Enter
                }
            }
            _ => Seen::Enter,
        }
    }

    fn visit_const(&mut self, cx: &Interner, ct: Const, _binders: &Binders) -> Seen<()> {
        match cx.const_kind(ct) {
            ConstKind::Param(index) => {
                if self.index == index as usize {
                    Seen::Break(())
                } else {
                    Seen::Enter
                }
            }
            _ => Seen::Enter,
        }
    }

    fn visit_region(&mut self, _cx: &Interner, _region: Region, _binders: &Binders) -> Seen<()> {
        Seen::Enter
    }
}

/// Whether the type or const parameter occurs in the type.
fn mentions_param(cx: &Interner, ty: Ty, index: usize) -> bool
    requires { Has cx.now.entries types ty.0 }
    ensures { result ≡ some_node (is_parameter index) (trees_at cx.now.entries ty.0) }
{
    match ty.visit_with(cx, &mut ParamFinder { index }) {
        ControlFlow::Break(()) => true,
        ControlFlow::Continue(()) => false,
    }
}

/// Whether the parameter occurs in the last field and in no earlier one.
fn is_unsizing_param(cx: &Interner, fields: &[Ty], index: usize) -> bool
    requires { Each (λ t. Has cx.now.entries types t.0) fields.now }
    ensures { result ≡ is_unsizing (field_trees cx.now.entries fields.now) index }
{
    let mut left = fields;
    'fields: while let [field, others @ ..] = left {
        if others.is_empty() {
            return mentions_param(cx, *field, index);
        }
        if mentions_param(cx, *field, index) {
            return false;
        }
        left = others;
    }
    false
}

/// For each of `count` parameters, whether it is unsizing for a struct with these fields.
pub(crate) fn unsizing_params(
    alloc: Global,
    cx: &Interner,
    fields: &[Ty],
    count: usize,
) -> Result<Vec<bool>, Fault>
    requires { Each (λ t. Has cx.now.entries types t.0) fields.now }
    ensures is { IfOk result (λ v. v.items ≡ unsizing_flags (field_trees cx.now.entries fields.now) count) }
    ensures memory { IfErr result (λ fault. fault ≡ Memory) }
{
    let mut found = Vec::new(alloc);
    let mut index = 0;
    'params: while index < count {
        found.push(is_unsizing_param(cx, fields, index))?;
        index += 1;
    }
    Ok(found)
}
