//! Whether the values of an answer speak of what their question may speak of.

ghost use Rattle.std.specs.Prelude.{◌≡◌, ◌||◌, ◌&&◌, ◌∷◌, true, false, not, map, IfOk, List};
ghost use Rattle.type_terms.specs.Promised.Answers.{is_undeclared};
ghost use Rattle.type_terms.specs.Promised.Handles.{ArgHeld, ArgsHeld, arg_trees, Entry};
ghost use Rattle.type_terms.specs.Promised.Label.{of_type, of_const, placeholder};
ghost use Rattle.type_terms.specs.Promised.Handles.{Has, types, consts, trees_at};
ghost use Rattle.type_terms.specs.Terms.{args_lists};
ghost use Rattle.type_terms.specs.Promised.Trees.{some_node};
ghost use Rattle.type_terms.specs.Promised.Worlds.{World};
ghost use Rattle.declarations.specs.Applied.{TraitRefsHeld, references_in};
ghost use Rattle.declarations.specs.Held.{ReferenceHeld};
ghost use Rattle.declarations.specs.Items.{reference_in, written};
ghost use Rattle.sessions.specs.Promised.OwnValues.{is_same_param, occurs_among};
ghost use Rattle.sessions.specs.Foreign.{HasNoPreference, HasPreference, IsMaybeWith, IsOwnAnswer, IsOwnAnswerOfAll, are_own_terms, is_foreign_term, is_unknown_term, label_of, question_in, strays};
ghost use Rattle.sessions.specs.Promised.Given.{AnswerValuesHeld, values_of_answer};

use crate::answers::ProveAnswer;
use candidate_assembly::visitors::{bounds_are_declared, break_if, struct_is_declared};
use declarations::declarations::Declarations;
use std::alloc::{AllocError, Global};
use std::ops::ControlFlow;
use term_folds::predicate::TraitRef;
use text_lowering::LoweredQuestion;
use type_terms::binders::Binders;
use type_terms::flags::TypeFlags;
use type_terms::interner::Interner;
use type_terms::kinds::{Const, ConstKind, GenericArgKind, GenericArgs, Ty, TyKind};
use type_terms::once::Once;
use type_terms::region::Region;
use type_terms::visit::{Seen, TypeVisitor, visit_args, visit_ty};
use type_terms::visitable_ext::TypeVisitableExt;

/// The placeholder of a parameter of a question, by its number.
#[derive(Clone, Copy)]
enum Param {
    Ty(u32),
    Const(u32),
}

impl Param {
    /// Whether a type's placeholder with a number is this one.
    fn is_type(self, number: u32) -> bool
        ensures { result ≡ is_same_param (placeholder of_type number) (label_of self) }
    {
        match self {
            Param::Ty(own) => own == number,
            Param::Const(_) => false,
        }
    }

    /// Whether a constant's placeholder with a number is this one.
    fn is_const(self, number: u32) -> bool
        ensures { result ≡ is_same_param (placeholder of_const number) (label_of self) }
    {
        match self {
            Param::Ty(_) => false,
            Param::Const(own) => own == number,
        }
    }
}

/// Breaks at the placeholder of a parameter.
#[derive(Clone, Copy)]
struct FindsParam {
    param: Param,
}

impl TypeVisitor for FindsParam {
    type Break = ();

    ghost use Rattle.std.proofs.Common.{refl};
    ghost use Rattle.candidate_assembly.specs.Finding.{BreaksAt, at_root};
    ghost use Rattle.sessions.specs.Promised.OwnValues.{is_same_param};
    ghost use Rattle.sessions.specs.Foreign.{label_of, bounds-are-no-params};

    ghost ready = { λ _ _. Unit {0} };

    ghost sees = { λ es bs t v w a. (w ≡ v) × BreaksAt (at_root (λ l. is_same_param l (label_of v.param)) t) a };

    ghost enters_bounds = { λ v es bs t h. (refl, bounds-are-no-params _ (label_of v.param) t h) };

    fn visit_ty(&mut self, cx: &Interner, ty: Ty, _binders: &Binders) -> Seen<()> {
        match cx.kind(ty) {
            TyKind::Placeholder(number) => break_if(self.param.is_type(number)),
            TyKind::Bool
            | TyKind::Char
            | TyKind::Int(_)
            | TyKind::Uint(_)
            | TyKind::Str
            | TyKind::Never
            | TyKind::Adt(_, _)
            | TyKind::Ref(_, _, _)
            | TyKind::RawPtr(_, _)
            | TyKind::Array(_, _)
            | TyKind::Slice(_)
            | TyKind::Tuple(_)
            | TyKind::FnPtr(_, _)
            | TyKind::Dynamic(_, _)
            | TyKind::Param(_)
            | TyKind::Bound(_, _)
            | TyKind::Infer(_) => Seen::Enter,
        }
    }

    fn visit_const(&mut self, cx: &Interner, ct: Const, _binders: &Binders) -> Seen<()> {
        match cx.const_kind(ct) {
            ConstKind::Placeholder(number) => break_if(self.param.is_const(number)),
            ConstKind::Param(_)
            | ConstKind::Bound(_, _)
            | ConstKind::Infer(_)
            | ConstKind::Value(_) => Seen::Enter,
        }
    }

    fn visit_region(&mut self, _cx: &Interner, _region: Region, _binders: &Binders) -> Seen<()> {
        Seen::Enter
    }
}

/// Whether a parameter stands in the arguments. A type that stands in many places is entered once.
fn args_hold(cx: &Interner, args: GenericArgs, param: Param) -> bool
    requires { Has cx.now.entries args_lists args.0 }
    ensures { result ≡ some_node (λ l. is_same_param l (label_of param)) (trees_at cx.now.entries args.0) }
{
    let mut finds = Once::new(cx.allocator(), FindsParam { param });
    match visit_args(cx, &mut finds, args, &Binders::Outermost) {
        ControlFlow::Break(()) => true,
        ControlFlow::Continue(()) => false,
    }
}

/// Whether a parameter stands in one of the references.
fn references_hold(cx: &Interner, references: &[TraitRef], param: Param) -> bool
    requires { TraitRefsHeld cx.now.entries references.now }
    ensures { result ≡ occurs_among (references_in cx.now.entries references.now) (label_of param) }
{
    let mut left = references;
    'references: while let Some((reference, others)) = left.split_first() {
        if args_hold(cx, reference.args, param) {
            return true;
        }
        left = others;
    }
    false
}

/// The references that a question asks about.
#[derive(Clone, Copy)]
struct Asked<'a> {
    /// What it asks for.
    reference: TraitRef,
    /// What it asks for further, and its where-clauses, as they are written.
    clauses: &'a [TraitRef],
}

impl Asked<'_> {
    /// Whether a parameter stands in one of them.
    fn holds(self, cx: &Interner, param: Param) -> bool
        requires reference { ReferenceHeld cx.now.entries self.reference }
        requires clauses { TraitRefsHeld cx.now.entries self.clauses.now }
        ensures { result ≡ occurs_among (question_in cx.now.entries self.entry.reference self.entry.clauses.now) (label_of param) }
    {
        args_hold(cx, self.reference.args, param) || references_hold(cx, self.clauses, param)
    }

    /// Whether a type or a constant is unknown in what it asks for.
    fn has_unknowns(self, cx: &Interner) -> bool
        requires { ReferenceHeld cx.now.entries self.reference }
        ensures { result ≡ some_node is_unknown_term (reference_in cx.now.entries self.entry.reference).args }
    {
        self.reference
            .args
            .has_type_flags(cx, TypeFlags::HAS_TY_INFER)
            || self
                .reference
                .args
                .has_type_flags(cx, TypeFlags::HAS_CT_INFER)
    }
}

/// Breaks at an open place that is neither an unknown nor a parameter of the question.
#[derive(Clone, Copy)]
struct FindsStray<'a> {
    asked: Asked<'a>,
}

impl TypeVisitor for FindsStray<'_> {
    type Break = ();

    ghost use Rattle.std.proofs.Common.{refl};
    ghost use Rattle.declarations.specs.Applied.{TraitRefsHeld};
    ghost use Rattle.declarations.specs.Held.{ReferenceHeld};
    ghost use Rattle.candidate_assembly.specs.Finding.{BreaksAt, at_root};
    ghost use Rattle.sessions.specs.Foreign.{question_in, strays, bounds-stand};

    ghost ready = { λ v es. ReferenceHeld es v.asked.reference × TraitRefsHeld es v.asked.clauses.now };

    ghost sees = { λ es bs t v w a. (w ≡ v) × BreaksAt (at_root (strays (question_in es v.asked.reference v.asked.clauses.now)) t) a };

    ghost enters_bounds = { λ v es bs t h. (refl, bounds-stand _ (question_in es v.asked.reference v.asked.clauses.now) t h) };

    fn visit_ty(&mut self, cx: &Interner, ty: Ty, _binders: &Binders) -> Seen<()> {
        match cx.kind(ty) {
            TyKind::Placeholder(number) => break_if(!self.asked.holds(cx, Param::Ty(number))),
            TyKind::Param(_) | TyKind::Bound(_, _) => Seen::Break(()),
            TyKind::Bool
            | TyKind::Char
            | TyKind::Int(_)
            | TyKind::Uint(_)
            | TyKind::Str
            | TyKind::Never
            | TyKind::Adt(_, _)
            | TyKind::Ref(_, _, _)
            | TyKind::RawPtr(_, _)
            | TyKind::Array(_, _)
            | TyKind::Slice(_)
            | TyKind::Tuple(_)
            | TyKind::FnPtr(_, _)
            | TyKind::Dynamic(_, _)
            | TyKind::Infer(_) => Seen::Enter,
        }
    }

    fn visit_const(&mut self, cx: &Interner, ct: Const, _binders: &Binders) -> Seen<()> {
        match cx.const_kind(ct) {
            ConstKind::Placeholder(number) => {
                break_if(!self.asked.holds(cx, Param::Const(number)))
            }
            ConstKind::Param(_) | ConstKind::Bound(_, _) => Seen::Break(()),
            ConstKind::Infer(_) | ConstKind::Value(_) => Seen::Enter,
        }
    }

    fn visit_region(&mut self, _cx: &Interner, _region: Region, _binders: &Binders) -> Seen<()> {
        Seen::Enter
    }
}

/// Breaks at a struct that is not declared, and at a `dyn` with a trait that is not.
#[derive(Clone, Copy)]
struct FindsUndeclared<'a> {
    declarations: &'a Declarations,
}

impl TypeVisitor for FindsUndeclared<'_> {
    type Break = ();

    ghost use Rattle.std.proofs.Common.{refl};
    ghost use Rattle.declarations.specs.Items.{written};
    ghost use Rattle.candidate_assembly.specs.Finding.{BreaksAt, names_undeclared, bounds-are-seen};

    ghost ready = { λ _ _. Unit {0} };

    ghost sees = { λ es bs t v w a. (w ≡ v) × BreaksAt (names_undeclared (written es v.declarations.now) t) a };

    ghost enters_bounds = { λ v es bs t h. (refl, bounds-are-seen _ (written es v.declarations.now) t h) };

    fn visit_ty(&mut self, cx: &Interner, ty: Ty, _binders: &Binders) -> Seen<()> {
        cx.lawful();
        match cx.kind(ty) {
            TyKind::Adt(id, _) => break_if(!struct_is_declared(self.declarations, id)),
            TyKind::Dynamic(bounds, _) => {
                break_if(!bounds_are_declared(cx, self.declarations, bounds))
            }
            TyKind::Bool
            | TyKind::Char
            | TyKind::Int(_)
            | TyKind::Uint(_)
            | TyKind::Str
            | TyKind::Never
            | TyKind::Ref(_, _, _)
            | TyKind::RawPtr(_, _)
            | TyKind::Array(_, _)
            | TyKind::Slice(_)
            | TyKind::Tuple(_)
            | TyKind::FnPtr(_, _)
            | TyKind::Param(_)
            | TyKind::Placeholder(_)
            | TyKind::Bound(_, _)
            | TyKind::Infer(_) => Seen::Enter,
        }
    }

    fn visit_const(&mut self, cx: &Interner, _ct: Const, _binders: &Binders) -> Seen<()> {
        cx.lawful();
        Seen::Enter
    }

    fn visit_region(&mut self, _cx: &Interner, _region: Region, _binders: &Binders) -> Seen<()> {
        Seen::Enter
    }
}

/// Whether an open place stands in the type that is neither an unknown nor a parameter of the question.
fn ty_strays(cx: &Interner, asked: Asked<'_>, ty: Ty) -> bool
    requires ty { Has cx.now.entries types ty.0 }
    requires reference { ReferenceHeld cx.now.entries asked.reference }
    requires clauses { TraitRefsHeld cx.now.entries asked.clauses.now }
    ensures { result ≡ some_node (strays (question_in cx.now.entries asked.entry.reference asked.entry.clauses.now)) (trees_at cx.now.entries ty.0) }
{
    let mut finds = Once::new(cx.allocator(), FindsStray { asked });
    match visit_ty(cx, &mut finds, ty, &Binders::Outermost) {
        ControlFlow::Break(()) => true,
        ControlFlow::Continue(()) => false,
    }
}

/// Whether all structs and traits that the type names are declared.
fn ty_is_declared(cx: &Interner, declarations: &Declarations, ty: Ty) -> bool
    requires { Has cx.now.entries types ty.0 }
    ensures { result ≡ not (some_node (is_undeclared (written cx.now.entries declarations.now)) (trees_at cx.now.entries ty.0)) }
{
    cx.lawful();
    let mut finds = Once::new(cx.allocator(), FindsUndeclared { declarations });
    match visit_ty(cx, &mut finds, ty, &Binders::Outermost) {
        ControlFlow::Break(()) => false,
        ControlFlow::Continue(()) => true,
    }
}

/// Whether a constant is a number, an unknown, or a parameter of the question.
fn const_is_own(cx: &Interner, asked: Asked<'_>, ct: Const) -> bool
    requires ct { Has cx.now.entries consts ct.0 }
    requires reference { ReferenceHeld cx.now.entries asked.reference }
    requires clauses { TraitRefsHeld cx.now.entries asked.clauses.now }
    ensures { let rs = question_in cx.now.entries asked.entry.reference asked.entry.clauses.now in
        (V : World) → result ≡ not (some_node (is_foreign_term V rs) (trees_at cx.now.entries ct.0)) }
{
    match cx.const_kind(ct) {
        ConstKind::Placeholder(number) => asked.holds(cx, Param::Const(number)),
        ConstKind::Param(_) | ConstKind::Bound(_, _) => false,
        ConstKind::Infer(_) | ConstKind::Value(_) => true,
    }
}

/// Whether the value names what is declared, and has no open places but unknowns and parameters of the question.
fn value_is_own(
    cx: &Interner,
    declarations: &Declarations,
    asked: Asked<'_>,
    value: GenericArgKind,
) -> bool
    requires value { ArgHeld cx.now.entries value }
    requires reference { ReferenceHeld cx.now.entries asked.reference }
    requires clauses { TraitRefsHeld cx.now.entries asked.clauses.now }
    ensures { let es = cx.now.entries in let rs = question_in es asked.entry.reference asked.entry.clauses.now in
        result ≡ not (some_node (is_foreign_term (written es declarations.now) rs) (arg_trees es value)) }
{
    match value {
        GenericArgKind::Lifetime(_) => true,
        GenericArgKind::Ty(ty) => {
            ty_is_declared(cx, declarations, ty) && !ty_strays(cx, asked, ty)
        }
        GenericArgKind::Const(ct) => const_is_own(cx, asked, ct),
    }
}

/// Whether all values do.
fn values_are_own(
    cx: &Interner,
    declarations: &Declarations,
    asked: Asked<'_>,
    values: &[GenericArgKind],
) -> bool
    requires values { ArgsHeld cx.now.entries values.now }
    requires reference { ReferenceHeld cx.now.entries asked.reference }
    requires clauses { TraitRefsHeld cx.now.entries asked.clauses.now }
    ensures { let es = cx.now.entries in let rs = question_in es asked.entry.reference asked.entry.clauses.now in
        result ≡ are_own_terms (written es declarations.now) rs (map (arg_trees es) values.now) }
{
    let mut left = values;
    'values: while let Some((value, others)) = left.split_first() {
        if !value_is_own(cx, declarations, asked, *value) {
            return false;
        }
        left = others;
    }
    true
}

/// Whether the values can leave solutions out. Of two where-clauses the search prefers one, so those of a `Maybe` under where-clauses can.
fn has_preference(answer: &ProveAnswer, clauses: &[TraitRef]) -> bool
    ensures preferred { (es : List Entry) → result ≡ true → HasPreference (references_in es clauses.now) answer.now }
    ensures none { (es : List Entry) → result ≡ false → HasNoPreference (references_in es clauses.now) answer.now }
{
    match answer {
        ProveAnswer::Maybe(_) => !clauses.is_empty(),
        ProveAnswer::Yes(_) | ProveAnswer::Unproved => false,
    }
}

/// Whether a value speaks of something else than the question does, which has unknowns.
fn is_foreign(
    cx: &Interner,
    declarations: &Declarations,
    asked: Asked<'_>,
    answer: &ProveAnswer,
) -> bool
    requires answer { AnswerValuesHeld cx.now.entries answer.now }
    requires reference { ReferenceHeld cx.now.entries asked.reference }
    requires clauses { TraitRefsHeld cx.now.entries asked.clauses.now }
    ensures { let es = cx.now.entries in let rs = question_in es asked.entry.reference asked.entry.clauses.now in
        result ≡ some_node is_unknown_term (reference_in es asked.entry.reference).args
        && not (are_own_terms (written es declarations.now) rs (map (arg_trees es) (values_of_answer answer.now))) }
{
    asked.has_unknowns(cx) && !values_are_own(cx, declarations, asked, answer.values())
}

/// `Maybe`, and each variable of the question stands for itself. Fails only if memory is refused.
fn variables_themselves(
    alloc: Global,
    question: &LoweredQuestion,
) -> Result<ProveAnswer, AllocError>
    ensures { IfOk result (IsMaybeWith question.now.unknowns.items) }
{
    let unknowns = Vec::from_slice(alloc, &question.unknowns)?;
    Ok(ProveAnswer::Maybe(unknowns))
}

/// The answer to a question as it is handed on. A value that names what the crate does not see, or that has another open place than
/// unknowns and the question's parameters, the rules of the crate do not give. So with such a value the answer is `Maybe`, and each variable
/// stands for itself. So it does in a `Maybe` under where-clauses.
///
/// Fails only if memory is refused.
pub(crate) fn own_answer(
    alloc: Global,
    cx: &Interner,
    declarations: &Declarations,
    question: &LoweredQuestion,
    answer: ProveAnswer,
) -> Result<ProveAnswer, AllocError>
    requires answer { AnswerValuesHeld cx.now.entries answer }
    requires reference { ReferenceHeld cx.now.entries question.now.asked }
    requires clauses { TraitRefsHeld cx.now.entries question.now.clauses.items }
    ensures { let es = cx.now.entries in IfOk result
        (IsOwnAnswer (written es declarations.now) (reference_in es question.now.asked) (references_in es question.now.clauses.items)
        question.now.unknowns.items es answer) }
{
    let asked = Asked {
        reference: question.asked,
        clauses: &question.clauses,
    };
    if has_preference(&answer, asked.clauses) {
        return variables_themselves(alloc, question);
    }
    if is_foreign(cx, declarations, asked, &answer) {
        return variables_themselves(alloc, question);
    }
    Ok(answer)
}

/// The same for the answer to a question about several trait references. Its values may speak of parameters of each of them.
///
/// Fails only if memory is refused.
pub(crate) fn own_answer_together(
    alloc: Global,
    cx: &Interner,
    declarations: &Declarations,
    question: &LoweredQuestion,
    answer: ProveAnswer,
) -> Result<ProveAnswer, AllocError>
    requires answer { AnswerValuesHeld cx.now.entries answer }
    requires reference { ReferenceHeld cx.now.entries question.now.asked }
    requires further { TraitRefsHeld cx.now.entries question.now.further.items }
    requires clauses { TraitRefsHeld cx.now.entries question.now.clauses.items }
    ensures { let es = cx.now.entries in IfOk result
        (IsOwnAnswerOfAll (written es declarations.now) (reference_in es question.now.asked ∷ references_in es question.now.further.items)
        (references_in es question.now.clauses.items) question.now.unknowns.items es answer) }
{
    if has_preference(&answer, &question.clauses) {
        return variables_themselves(alloc, question);
    }
    let mut others = Vec::from_slice(alloc, &question.further)?;
    others.extend_from_slice(&question.clauses)?;
    let asked = Asked {
        reference: question.asked,
        clauses: &others,
    };
    if !values_are_own(cx, declarations, asked, answer.values()) {
        return variables_themselves(alloc, question);
    }
    Ok(answer)
}
