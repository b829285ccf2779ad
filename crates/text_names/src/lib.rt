//! The names of a line are looked up, and the line is judged: of all faults that apply, the one with the smallest number is its fault.
//!
//! A machine visits the cells of a type from the last to the first. It finds each use of a name, a lifetime, a binder and a `dyn`, and the
//! cells with numbers for names. It keeps its own stack, so nothing recurses, however deep a type is. What is found of the types and bounds
//! of a line is put together, and judged.
#![tactic(auto)]

ghost use Rattle.text_names.specs.Standing.{CellsStand};
ghost use Rattle.text_names.specs.Together.{FindingsTogether, VariablesTogether, NothingFound};
ghost use Rattle.text_names.specs.UsedNames.{TypesUseNames, ArgsUseNames};
ghost use Rattle.text_names.specs.Laws.{MachineResolves, ArgsResolved, TypesTurned, ArgsTurned};

mod binders;
mod fault;
mod findings;
mod found;
mod found_variables;
mod header;
mod heads;
mod judge;
mod judge_use;
mod limits;
mod line;
mod looked_up;
mod name_set;
mod names;
mod params;
mod parts;
mod resolve;
mod resolved;
mod shapes;
mod turn;
mod variables;
mod walk;

pub use fault::FaultKind;
pub use findings::Findings;
pub use found_variables::each_once;
pub use header::implemented_trait;
pub use judge::{JudgedLine, judge_line};
pub use judge_use::{crate_name, has_static, is_param, repeats};
pub use line::LineFound;
pub use looked_up::Names;
pub use name_set::NameSet;
pub use names::LineNames;
pub use parts::{PartsFound, ResolvedPart};
pub use resolve::{Resolved, ResolvedBound, resolve_bound, resolve_type};
pub use resolved::{NodeLabel, Region, ResolvedCell, Variable};

/// The resolved cells of a type stand for the type's term.
pub fn cells_stand()
    ensures { CellsStand }
{}

/// What is found of two lists of uses is what is found of both together.
pub fn found_together()
    ensures findings { FindingsTogether }
    ensures variables { VariablesTogether }
    ensures none { NothingFound }
{}

/// The names in the cells of a type, or of arguments, are those that these use where a type or a constant is expected.
pub fn used_names()
    ensures types { TypesUseNames }
    ensures args { ArgsUseNames }
{}

/// The visit of a type's cells from the last to the first finds what the definitions say of the type: its uses, whether it is too deep, and
/// its resolved cells.
pub fn machine_laws()
    ensures types { MachineResolves }
    ensures args { ArgsResolved }
    ensures types_turned { TypesTurned }
    ensures args_turned { ArgsTurned }
{}
