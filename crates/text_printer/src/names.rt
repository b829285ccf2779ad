//! The names of structs, traits, parameters, placeholders and inference variables.
ghost use Rattle.std.specs.Prelude.{◌≡◌, ◌++◌, OnOk};
ghost use Rattle.text_language.specs.Output.{Names};
ghost use Rattle.text_printer.specs.Kinds.{sort_of_kind};

use std::alloc::AllocError;
use type_terms::{AdtId, TraitId};

/// Whether a parameter or an inference variable stands for a type or a constant.
#[derive(Clone, Copy, PartialEq, Eq)]
pub enum TermKind {
    Ty,
    Const,
}

/// A text for each struct, trait, parameter, placeholder and inference variable, by number. Each call appends it.
///
/// A call fails only if memory is refused. It may then have appended a part of the text.
pub trait PrintNames {
    // The texts.
    ghost names: { Self → Names };

    /// A struct's name.
    fn push_struct(&self, id: AdtId, out: &mut Vec<u8>) -> Result<(), AllocError>
        ensures { OnOk result (out.new.items ≡ out.old.items ++ (names self.now).of_struct id.index) };

    /// A trait's name.
    fn push_trait(&self, id: TraitId, out: &mut Vec<u8>) -> Result<(), AllocError>
        ensures { OnOk result (out.new.items ≡ out.old.items ++ (names self.now).of_trait id.index) };

    /// A parameter of a declaration, by its index there.
    fn push_param(&self, kind: TermKind, index: u32, out: &mut Vec<u8>) -> Result<(), AllocError>
        ensures { OnOk result (out.new.items ≡ out.old.items ++ (names self.now).of_param (sort_of_kind kind) index) };

    /// A parameter of a query, by its index there.
    fn push_placeholder(
        &self,
        kind: TermKind,
        index: u32,
        out: &mut Vec<u8>,
    ) -> Result<(), AllocError>
        ensures { OnOk result (out.new.items ≡ out.old.items ++ (names self.now).of_placeholder (sort_of_kind kind) index) };

    /// An inference variable, by its number among those of its kind.
    fn push_unknown(&self, kind: TermKind, index: u32, out: &mut Vec<u8>) -> Result<(), AllocError>
        ensures { OnOk result (out.new.items ≡ out.old.items ++ (names self.now).of_unknown (sort_of_kind kind) index) };
}
