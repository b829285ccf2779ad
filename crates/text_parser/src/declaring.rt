//! What a line declares or queries is added to the tables. All parts of a line are made before the tables change, so a line's own item is
//! never found while its parts are made.
ghost use Rattle.std.specs.Prelude.{◌≡◌, ◌<◌, length, OnOk};
ghost use Rattle.text_lines.specs.Views.{params_in, statement_of};
ghost use Rattle.text_parser.specs.Declaring.{IsJudged, AddsLine};
ghost use Rattle.text_tables.specs.Tables.{declared, IsConsistent};
ghost use Rattle.text_tables.specs.Views.{asker_of};
ghost use Rattle.text_parser.specs.Entries.{SaysStruct, SaysTrait, SaysImpl, IsAsking};

use crate::entries::{
    ImplReferences, impl_references, question_entry, struct_fields, trait_bounds,
};
use crate::params::{kinds_of, named_params};
use crate::so_far::SoFar;
use std::alloc::{AllocError, Global};
use text_lines::{LineRead, Param, Statement};
use text_names::LineFound;
use text_tables::{Asked, Tables};

/// What precedes the fields of a struct.
#[derive(Clone, Copy)]
struct StructHead<'s, 'a> {
    is_fundamental: bool,
    name: &'s [u8],
    params: &'s [Param<'a>],
}

/// What precedes the bounds of a trait.
#[derive(Clone, Copy)]
struct TraitHead<'s, 'a> {
    is_fundamental: bool,
    is_auto: bool,
    name: &'s [u8],
    params: &'s [Param<'a>],
}

fn declare_struct<'a>(
    tables: &mut Tables,
    alloc: Global,
    read: &LineRead<'a>,
    found: &LineFound<'a>,
    head: StructHead<'_, '_>,
) -> Result<(), AllocError>
    requires judged { IsJudged tables.old read.now found.now }
    requires line { SaysStruct (statement_of read.now.statement) head.is_fundamental head.name.now (params_in head.params.now) }
    ensures added { OnOk result (AddsLine (declared tables.old) read.now (declared tables.new)) }
    ensures agrees { OnOk result (IsConsistent tables.new) }
{
    let kinds = kinds_of(alloc, head.params)?;
    let cells = struct_fields(tables, alloc, read, found)?;
    tables.add_struct(head.name, head.is_fundamental, kinds, cells)
}

fn declare_trait<'a>(
    tables: &mut Tables,
    alloc: Global,
    read: &LineRead<'a>,
    found: &LineFound<'a>,
    head: TraitHead<'_, '_>,
) -> Result<(), AllocError>
    requires judged { IsJudged tables.old read.now found.now }
    requires line { SaysTrait (statement_of read.now.statement) head.is_fundamental head.is_auto head.name.now
        (params_in head.params.now) }
    ensures added { OnOk result (AddsLine (declared tables.old) read.now (declared tables.new)) }
    ensures agrees { OnOk result (IsConsistent tables.new) }
{
    let kinds = kinds_of(alloc, head.params)?;
    let references = trait_bounds(tables, alloc, read, found)?;
    tables.add_trait(
        head.name,
        head.is_fundamental,
        head.is_auto,
        kinds,
        references,
    )
}

fn declare_impl<'a>(
    tables: &mut Tables,
    alloc: Global,
    read: &LineRead<'a>,
    found: &LineFound<'a>,
    params: &[Param<'_>],
) -> Result<(), AllocError>
    requires judged { IsJudged tables.old read.now found.now }
    requires line { SaysImpl (statement_of read.now.statement) (params_in params.now) }
    ensures added { OnOk result (AddsLine (declared tables.old) read.now (declared tables.new)) }
    ensures agrees { OnOk result (IsConsistent tables.new) }
{
    let named = named_params(alloc, params)?;
    let made = impl_references(tables, alloc, read, found)?;
    let ImplReferences {
        header: reference,
        clauses: references,
    } = made;
    tables.add_impl(named, reference, references)
}

fn declare_question<'a>(
    tables: &mut Tables,
    alloc: Global,
    read: &LineRead<'a>,
    found: &LineFound<'a>,
    asked_how: Asked,
    params: &[Param<'_>],
) -> Result<(), AllocError>
    requires judged { IsJudged tables.old read.now found.now }
    requires line { IsAsking (declared tables.old) (statement_of read.now.statement) asked_how (params_in params.now) }
    requires asker { asker_of asked_how < length (declared tables.old).crates }
    ensures added { OnOk result (AddsLine (declared tables.old) read.now (declared tables.new)) }
    ensures agrees { OnOk result (IsConsistent tables.new) }
{
    let entry = question_entry(tables, alloc, read, found, asked_how, params)?;
    tables.add_question(entry)
}

/// Adds a line without a fault, of which this was found, to the tables. They then hold what they held, and what this line declares, checks
/// or queries. No name is looked up again.
///
/// Fails only if memory is refused, and then the tables must not be used any more.
pub(crate) fn declare<'a>(
    tables: &mut Tables,
    alloc: Global,
    read: &LineRead<'a>,
    found: &LineFound<'a>,
) -> Result<(), AllocError>
    requires { IsJudged tables.old read.now found.now }
    ensures added { OnOk result (AddsLine (declared tables.old) read.now (declared tables.new)) }
    ensures agrees { OnOk result (IsConsistent tables.new) }
{
    match &read.statement {
        Statement::Crate { name, uses } => tables.add_crate(name, uses),
        Statement::Struct {
            is_fundamental,
            name,
            params,
            ..
        } => {
            let head = StructHead {
                is_fundamental: *is_fundamental,
                name,
                params,
            };
            declare_struct(tables, alloc, read, found, head)
        }
        Statement::Trait {
            is_fundamental,
            is_auto,
            name,
            params,
            ..
        } => {
            let head = TraitHead {
                is_fundamental: *is_fundamental,
                is_auto: *is_auto,
                name,
                params,
            };
            declare_trait(tables, alloc, read, found, head)
        }
        Statement::Impl { params, .. } => declare_impl(tables, alloc, read, found, params),
        Statement::Prove {
            crate_name,
            params,
            ..
        } => {
            let asker = SoFar::new(tables).asking_crate(crate_name);
            declare_question(tables, alloc, read, found, Asked::Prove(asker), params)
        }
        Statement::Refute {
            crate_name,
            params,
            ..
        } => {
            let asker = SoFar::new(tables).asking_crate(crate_name);
            declare_question(tables, alloc, read, found, Asked::Refute(asker), params)
        }
        Statement::Later { crate_name } => tables.add_section(crate_name),
        Statement::Supers { crate_name } => tables.add_supers(crate_name),
    }
}
