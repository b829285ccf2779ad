//! Whether terms hold a table's own variables alone.

ghost use Rattle.std.specs.Prelude.{◌≡◌};
ghost use Rattle.sessions.specs.TypeTerms.Promised.Handles.{Has, trees_at};
ghost use Rattle.sessions.specs.TypeTerms.Terms.{args_lists};
ghost use Rattle.sessions.specs.InferTable.Content.{variables_of};
ghost use Rattle.sessions.specs.CandidateAssembly.Finding.{BreaksAt};
ghost use Rattle.explain_sessions.specs.Unknowns.{speaks_of_known};

use sessions::infer_table::infer_ctxt::InferCtxt;
use sessions::type_terms::binders::Binders;
use sessions::type_terms::interner::Interner;
use sessions::type_terms::kinds::{Const, ConstKind, GenericArgs, Ty, TyKind};
use sessions::type_terms::number::BoundVarIndexKind;
use sessions::type_terms::once::Once;
use sessions::type_terms::region::{Region, RegionKind};
use sessions::type_terms::visit::{Seen, TypeVisitor, visit_args};
use std::ops::ControlFlow;

fn break_if(found: bool) -> Seen<()>
    ensures { BreaksAt found result }
{
    if found { Seen::Break(()) } else { Seen::Enter }
}

/// Breaks at a parameter, placeholder or variable that is none of this many variables of each kind. Of lifetimes it breaks at variables and
/// canonical variables alone.
#[derive(Clone, Copy)]
struct FindsOther {
    ty_vars: u32,
    const_vars: u32,
    region_vars: u32,
}

impl TypeVisitor for FindsOther {
    type Break = ();

    ghost use Rattle.std.proofs.Common.{refl};
    ghost use Rattle.sessions.specs.CandidateAssembly.Finding.{BreaksAt, at_root};
    ghost use Rattle.explain_sessions.specs.Unknowns.{is_other_place, known_to, bounds-are-closed};

    ghost ready = { λ _ _. Unit {0} };

    ghost sees = { λ es bs t v w a. (w ≡ v) × BreaksAt (at_root (is_other_place (known_to v)) t) a };

    ghost enters_bounds = { λ v es bs t h. (refl, bounds-are-closed _ (known_to v) t h) };

    fn visit_ty(&mut self, cx: &Interner, ty: Ty, _binders: &Binders) -> Seen<()> {
        match cx.kind(ty) {
            TyKind::Infer(variable) => break_if(variable.index >= self.ty_vars),
            TyKind::Param(_) | TyKind::Placeholder(_) | TyKind::Bound(_, _) => Seen::Break(()),
            TyKind::Bool
            | TyKind::Char
            | TyKind::Int(_)
            | TyKind::Uint(_)
            | TyKind::Str
            | TyKind::Never
            | TyKind::Adt(_, _)
            | TyKind::Ref(_, _, _)
            | TyKind::RawPtr(_, _)
            | TyKind::Array(_, _)
            | TyKind::Slice(_)
            | TyKind::Tuple(_)
            | TyKind::FnPtr(_, _)
            | TyKind::Dynamic(_, _) => Seen::Enter,
        }
    }

    fn visit_const(&mut self, cx: &Interner, ct: Const, _binders: &Binders) -> Seen<()> {
        match cx.const_kind(ct) {
            ConstKind::Infer(variable) => break_if(variable.index >= self.const_vars),
            ConstKind::Param(_) | ConstKind::Placeholder(_) | ConstKind::Bound(_, _) => {
                Seen::Break(())
            }
            ConstKind::Value(_) => Seen::Enter,
        }
    }

    fn visit_region(&mut self, _cx: &Interner, region: Region, _binders: &Binders) -> Seen<()> {
        match region.kind {
            RegionKind::ReVar(variable) => break_if(variable.index >= self.region_vars),
            RegionKind::ReBound(BoundVarIndexKind::Canonical, _) => Seen::Break(()),
            RegionKind::ReBound(BoundVarIndexKind::Bound(_), _) => Seen::Enter,
            RegionKind::ReStatic => Seen::Enter,
            RegionKind::ReEarlyParam(_) => Seen::Enter,
            RegionKind::RePlaceholder(_) => Seen::Enter,
        }
    }
}

/// Whether the arguments hold the table's own variables alone, and no parameter or placeholder, except for lifetimes that something binds
/// or declares. A type that occurs more than once is entered once.
pub(crate) fn is_of_table(cx: &Interner, table: &InferCtxt, args: GenericArgs) -> bool
    requires { Has cx.now.entries args_lists args.0 }
    ensures { result ≡ speaks_of_known (variables_of table.now) (trees_at cx.now.entries args.0) }
{
    let known = table.snapshot();
    let visitor = FindsOther {
        ty_vars: known.ty_vars,
        const_vars: known.const_vars,
        region_vars: known.region_vars,
    };
    let mut finds = Once::new(cx.allocator(), visitor);
    match visit_args(cx, &mut finds, args, &Binders::Outermost) {
        ControlFlow::Break(()) => false,
        ControlFlow::Continue(()) => true,
    }
}
