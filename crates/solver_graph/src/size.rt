//! How much there is to walk through in a goal.

ghost use Rattle.infer_table.specs.Goals.{GoalHeld};

use infer_table::goal::Goal;
use infer_table::instantiate::BOUND_FLAGS;
use type_terms::binders::Binders;
use type_terms::flags::TypeFlags;
use type_terms::interner::Interner;
use type_terms::kinds::{Const, Ty};
use type_terms::once::Once;
use type_terms::region::Region;
use type_terms::visit::{Seen, TypeVisitor};
use type_terms::visitable_ext::TypeVisitableExt;

/// Whether terms with these flags hold no canonical or bound variable.
fn has_no_variables(flags: TypeFlags) -> bool {
    flags.0 & BOUND_FLAGS == 0
}

/// Enters the types that hold variables.
#[derive(Clone, Copy)]
struct EntersOpen;

impl TypeVisitor for EntersOpen {
    type Break = ();

    ghost ready = { λ _ _. Unit {0} };

    ghost sees = { λ _ _ _ _ _ _. Unit {0} };

    ghost enters_bounds = { λ _ _ _ _ _. tt };

    fn visit_ty(&mut self, cx: &Interner, ty: Ty, _binders: &Binders) -> Seen<()> {
        if has_no_variables(cx.flags(ty)) {
            Seen::Pass
        } else {
            Seen::Enter
        }
    }

    fn visit_const(&mut self, _cx: &Interner, _ct: Const, _binders: &Binders) -> Seen<()> {
        Seen::Enter
    }

    fn visit_region(&mut self, _cx: &Interner, _region: Region, _binders: &Binders) -> Seen<()> {
        Seen::Enter
    }
}

/// The number of types in a canonical goal that hold variables, its where-clauses among them. Each fold of the goal enters these types, and
/// no others. The first 32 are not counted, and a type that occurs again is not.
pub(crate) fn count_open_types(cx: &Interner, goal: &Goal) -> usize
    requires { GoalHeld cx.now.entries goal.now }
{
    if goal.param_env.is_empty() && has_no_variables(goal.predicate.flags(cx)) {
        return 0;
    }
    let mut once = Once::new(cx.allocator(), EntersOpen);
    let _ = goal.visit_with(cx, &mut once);
    once.entered.types.len()
}
