//! Queries, with their types as terms.
ghost use Rattle.std.specs.Prelude.{◌≡◌, ◌∷◌, map, IfOk};
ghost use Rattle.text_language.specs.Promised.Declarations.{Question};
ghost use Rattle.text_language.specs.Names.{own_from};
ghost use Rattle.type_terms.specs.Promised.Handles.{arg_trees, ArgsHeld, ArgHeld};
ghost use Rattle.type_terms.specs.Growth.{GrewOrFull};
ghost use Rattle.text_tables.specs.Made.{ReferencesMade};
ghost use Rattle.text_tables.specs.Views.{question_of, variable_of};
ghost use Rattle.text_lowering.specs.Promised.Questions.{IsQuestion};
ghost use Rattle.text_lowering.specs.Questions.{IsLowered, IsNextUnknown};

use crate::parts::{lower_reference, lower_references};
use crate::plain::Kept;
use std::alloc::Global;
use term_folds::predicate::TraitRef;
use text_tables::{Param, ParamKind, QuestionEntry, Workspace};
use type_terms::interner::Interner;
use type_terms::kinds::{ConstKind, GenericArgKind, TyKind};
use type_terms::number::{ConstVid, RegionVid, TyVid};
use type_terms::region::{Region, RegionKind};
use type_terms::{Fault, MAX_INDEX};

/// A query with its types as terms. A lifetime that a `for<...>` binds is `'static`. Its parameters are placeholders, and its variables are
/// inference variables.
#[derive(Drop)]
pub struct LoweredQuestion {
    /// The first trait reference of the query.
    pub asked: TraitRef,
    /// Its other trait references, in the order of the text.
    pub further: Vec<TraitRef>,
    /// The where-clauses as they are written, without their supertraits.
    pub clauses: Vec<TraitRef>,
    /// The inference variable for each variable of the query, in the order of first occurrence. Those of one kind count from 0.
    pub unknowns: Vec<GenericArgKind>,
}

/// How many inference variables of each kind there are.
#[derive(Clone, Copy)]
pub(crate) struct Counts {
    pub types: u32,
    pub consts: u32,
}

/// The inference variable for the next variable, of this kind.
fn next_unknown(
    cx: &mut Interner,
    kind: ParamKind,
    counts: &mut Counts,
) -> Result<GenericArgKind, Fault>
    ensures is { IfOk result (λ arg. IsNextUnknown cx.new.entries kind counts.old arg counts.new) }
    ensures held { IfOk result (λ arg. ArgHeld cx.new.entries arg) }
    ensures terms { GrewOrFull cx.old cx.new result }
{
    match kind {
        ParamKind::Lifetime => Ok(GenericArgKind::Lifetime(Region {
            kind: RegionKind::ReVar(RegionVid { index: 0 }),
        })),
        ParamKind::Type => {
            if counts.types >= MAX_INDEX {
                return Err(Fault::Memory);
            }
            let ty = cx.mk_ty(TyKind::Infer(TyVid {
                index: counts.types,
            }))?;
            counts.types += 1;
            Ok(GenericArgKind::Ty(ty))
        }
        ParamKind::Const => {
            if counts.consts >= MAX_INDEX {
                return Err(Fault::Memory);
            }
            let value = cx.mk_const(ConstKind::Infer(ConstVid {
                index: counts.consts,
            }))?;
            counts.consts += 1;
            Ok(GenericArgKind::Const(value))
        }
    }
}

/// The inference variables for the query's variables, in their order.
fn own_unknowns(
    alloc: Global,
    cx: &mut Interner,
    variables: &[Param],
) -> Result<Vec<GenericArgKind>, Fault>
    ensures are { IfOk result (λ args. map (arg_trees cx.new.entries) args.items ≡ own_from 0 0 (map variable_of variables.now)) }
    ensures held { IfOk result (λ args. ArgsHeld cx.new.entries args.items) }
    ensures terms { GrewOrFull cx.old cx.new result }
{
    let mut unknowns = Vec::new(alloc);
    let mut counts = Counts {
        types: 0,
        consts: 0,
    };
    for variable in variables {
        let unknown = next_unknown(cx, variable.kind, &mut counts)?;
        unknowns.push(unknown)?;
    }
    Ok(unknowns)
}

/// The query of an entry.
fn lower_entry(
    alloc: Global,
    cx: &mut Interner,
    entry: &QuestionEntry,
) -> Result<LoweredQuestion, Fault>
    requires asked { ReferencesMade (entry.now.asked ∷ entry.now.further.items) }
    requires clauses { ReferencesMade entry.now.clauses.items }
    ensures lowered { IfOk result (λ lowered. IsLowered cx.new.entries (question_of entry.now) lowered) }
    ensures terms { GrewOrFull cx.old cx.new result }
{
    let asked = lower_reference(alloc, cx, &entry.asked, Kept::All)?;
    let further = lower_references(alloc, cx, &entry.further, Kept::All)?;
    let clauses = lower_references(alloc, cx, &entry.clauses, Kept::All)?;
    let unknowns = own_unknowns(alloc, cx, &entry.variables)?;
    Ok(LoweredQuestion {
        asked,
        further,
        clauses,
        unknowns,
    })
}

/// The query with this number, counted from 1. Each handle keeps its term, after an error too.
///
/// Fails with `Memory` if memory is refused or there are more variables than `MAX_INDEX`, and with `Full` if a table of the interner is
/// full. The interner may then hold more terms than before.
pub fn lower_question(
    alloc: Global,
    cx: &mut Interner,
    workspace: &Workspace,
    number: u32,
) -> Result<LoweredQuestion, Fault>
    requires { (q : Question) × IsQuestion workspace.now number q }
    ensures lowered { (q : Question) → IsQuestion workspace.now number q → IfOk result (λ lowered. IsLowered cx.new.entries q lowered) }
    ensures terms { GrewOrFull cx.old cx.new result }
{
    let entries = workspace.question_entries();
    lower_entry(alloc, cx, &entries[number as usize - 1])
}
