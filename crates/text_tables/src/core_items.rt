//! The items of `core`. They are added by calls and not read from lines, so a program begins without reading.
ghost use Rattle.std.specs.Prelude.{◌≡◌, ◌∷◌, [], ◌++◌, None, false, map, length, OnOk, IfOk};
ghost use Rattle.type_terms.specs.Promised.Worlds.{core};
ghost use Rattle.text_language.specs.Promised.Declarations.{known, last_crate};
ghost use Rattle.text_language.specs.Declarations.{nothing_declared, copied};
ghost use Rattle.text_tables.specs.Numbered.{IsFew};
ghost use Rattle.text_tables.specs.Tables.{declared, core_alone, with_struct, with_impl, IsConsistent};
ghost use Rattle.text_tables.specs.Made.{AreMade, ReferenceMade, ReferencesMade, is_arg};
ghost use Rattle.text_tables.specs.Parts.{new_trait};
ghost use Rattle.text_tables.specs.Views.{sort_of_kind, reference_of, cells_of};
ghost use Rattle.text_tables.specs.TermCells.{trees_of, joined};
ghost use Rattle.text_tables.specs.CoreItems.{core_kinds, core_bounds, with_core_trait, core_box, core_structs, core_traits_to, HasRoom, IsInCore, with_core_impls, with_scalar_impls, impl_for, ref_impl, pointer_impl, array_impl, boxed_impl};

use crate::cell::{ParamKind, TermCell};
use crate::declared::{Param, ReferenceCells};
use crate::tables::Tables;
use std::alloc::{AllocError, Global};
use type_terms::kinds::{ConstKind, IntTy, Mutability, UintTy};
use type_terms::region::{Region, RegionKind};
use type_terms::{AdtId, TraitId};

const SIZED: TraitId = TraitId { index: 0 };

const CLONE: TraitId = TraitId { index: 1 };

const COPY: TraitId = TraitId { index: 2 };

const FN_ONCE: TraitId = TraitId { index: 5 };

const FN_MUT: TraitId = TraitId { index: 6 };

/// The types without parameters that are `Copy`.
const SCALARS: [TermCell; 15] = [
    TermCell::Bool,
    TermCell::Char,
    TermCell::Never,
    TermCell::Int(IntTy::I8),
    TermCell::Int(IntTy::I16),
    TermCell::Int(IntTy::I32),
    TermCell::Int(IntTy::I64),
    TermCell::Int(IntTy::I128),
    TermCell::Int(IntTy::Isize),
    TermCell::Uint(UintTy::U8),
    TermCell::Uint(UintTy::U16),
    TermCell::Uint(UintTy::U32),
    TermCell::Uint(UintTy::U64),
    TermCell::Uint(UintTy::U128),
    TermCell::Uint(UintTy::Usize),
];

fn param(alloc: Global, name: &[u8], kind: ParamKind) -> Result<Param, AllocError>
    ensures name { IfOk result (λ p. p.name.items ≡ name.now) }
    ensures kind { IfOk result (λ p. p.kind ≡ kind) }
{
    Ok(Param {
        name: Vec::from_slice(alloc, name)?,
        kind,
    })
}

fn reference(
    alloc: Global,
    trait_id: TraitId,
    args: &[TermCell],
) -> Result<ReferenceCells, AllocError>
    requires { AreMade is_arg args.now }
    ensures is { IfOk result (λ r. reference_of r ≡ record { trait = trait_id.index; args = joined (trees_of (cells_of args.now)) }) }
    ensures made { IfOk result (λ r. ReferenceMade r) }
{
    Ok(ReferenceCells {
        trait_id,
        args: Vec::from_slice(alloc, args)?,
    })
}

/// The parameters of a trait of `core`.
fn core_params(alloc: Global, takes_type: bool) -> Result<Vec<ParamKind>, AllocError>
    ensures { IfOk result (λ ps. map sort_of_kind ps.items ≡ core_kinds takes_type) }
{
    if takes_type {
        return Ok(vec![in alloc; ParamKind::Type]?);
    }
    Ok(Vec::new(alloc))
}

fn one_reference(alloc: Global, bound: ReferenceCells) -> Result<Vec<ReferenceCells>, AllocError>
    requires { ReferenceMade bound }
    ensures is { IfOk result (λ bs. map reference_of bs.items ≡ reference_of bound ∷ []) }
    ensures made { IfOk result (λ bs. ReferencesMade bs.items) }
{
    Ok(vec![in alloc; bound]?)
}

/// The bounds of a trait of `core`: at most one, with the same parameters.
fn core_bounds(
    alloc: Global,
    takes_type: bool,
    bound: Option<TraitId>,
) -> Result<Vec<ReferenceCells>, AllocError>
    ensures is { IfOk result (λ bs. map reference_of bs.items ≡ core_bounds takes_type bound) }
    ensures made { IfOk result (λ bs. ReferencesMade bs.items) }
{
    let Some(trait_id) = bound else {
        return Ok(Vec::new(alloc));
    };
    if takes_type {
        let bound = reference(alloc, trait_id, &[TermCell::Param(0), TermCell::Param(1)])?;
        return one_reference(alloc, bound);
    }
    let bound = reference(alloc, trait_id, &[TermCell::Param(0)])?;
    one_reference(alloc, bound)
}

impl Tables {
    fn add_core_trait(
        &mut self,
        name: &[u8],
        is_fundamental: bool,
        takes_type: bool,
        bound: Option<TraitId>,
    ) -> Result<(), AllocError>
        requires consistent { IsConsistent self.old }
        requires new { known (declared self.old) name.now ≡ None }
        requires room { HasRoom (declared self.old) }
        ensures declared { OnOk result (declared self.new ≡ with_core_trait (declared self.old) name.now is_fundamental takes_type bound) }
        ensures consistent { OnOk result (IsConsistent self.new) }
    {
        let params = core_params(self.alloc, takes_type)?;
        let bounds = core_bounds(self.alloc, takes_type, bound)?;
        self.add_trait(name, is_fundamental, false, params, bounds)?;
        Ok(())
    }

    /// `fundamental struct Box<T>(*const T)`
    fn add_box(&mut self) -> Result<(), AllocError>
        requires consistent { IsConsistent self.old }
        requires before { declared self.old ≡ core_alone }
        ensures declared { OnOk result (declared self.new ≡ core_box) }
        ensures consistent { OnOk result (IsConsistent self.new) }
    {
        let params = vec![in self.alloc; ParamKind::Type]?;
        let pointer = TermCell::RawPtr {
            mutability: Mutability::Not,
        };
        let fields = vec![in self.alloc; TermCell::Param(0), pointer]?;
        self.add_struct(b"Box", true, params, fields)?;
        Ok(())
    }

    /// `struct ::W<T>`, a name that no text can write.
    fn add_wrapper(&mut self) -> Result<(), AllocError>
        requires consistent { IsConsistent self.old }
        requires before { declared self.old ≡ core_box }
        ensures declared { OnOk result (declared self.new ≡ core_structs) }
        ensures consistent { OnOk result (IsConsistent self.new) }
    {
        let params = vec![in self.alloc; ParamKind::Type]?;
        let fields = Vec::new(self.alloc);
        self.add_struct(b"::W", false, params, fields)?;
        Ok(())
    }

    /// `fundamental trait Sized; trait Clone: Sized; trait Copy: Clone`
    fn add_first_traits(&mut self) -> Result<(), AllocError>
        requires consistent { IsConsistent self.old }
        requires before { declared self.old ≡ core_traits_to 0 }
        ensures declared { OnOk result (declared self.new ≡ core_traits_to 3) }
        ensures consistent { OnOk result (IsConsistent self.new) }
    {
        self.add_core_trait(b"Sized", true, false, None)?;
        self.add_core_trait(b"Clone", false, false, Some(SIZED))?;
        self.add_core_trait(b"Copy", false, false, Some(CLONE))?;
        Ok(())
    }

    /// `trait Tuple; trait FnPtr; fundamental trait FnOnce<A>`
    fn add_second_traits(&mut self) -> Result<(), AllocError>
        requires consistent { IsConsistent self.old }
        requires before { declared self.old ≡ core_traits_to 3 }
        ensures declared { OnOk result (declared self.new ≡ core_traits_to 6) }
        ensures consistent { OnOk result (IsConsistent self.new) }
    {
        self.add_core_trait(b"Tuple", false, false, None)?;
        self.add_core_trait(b"FnPtr", false, false, None)?;
        self.add_core_trait(b"FnOnce", true, true, None)?;
        Ok(())
    }

    /// `fundamental trait FnMut<A>: FnOnce<A>; fundamental trait Fn<A>: FnMut<A>; trait Unsize<T>`
    fn add_third_traits(&mut self) -> Result<(), AllocError>
        requires consistent { IsConsistent self.old }
        requires before { declared self.old ≡ core_traits_to 6 }
        ensures declared { OnOk result (declared self.new ≡ core_traits_to 9) }
        ensures consistent { OnOk result (IsConsistent self.new) }
    {
        self.add_core_trait(b"FnMut", true, true, Some(FN_ONCE))?;
        self.add_core_trait(b"Fn", true, true, Some(FN_MUT))?;
        self.add_core_trait(b"Unsize", false, true, None)?;
        Ok(())
    }

    /// `impl Tr for T`
    fn add_bare_impl(&mut self, trait_id: TraitId, self_type: TermCell) -> Result<(), AllocError>
        requires consistent { IsConsistent self.old }
        requires made { AreMade is_arg (self_type ∷ []) }
        requires room { HasRoom (declared self.old) }
        ensures declared { OnOk result (declared self.new ≡ with_impl (declared self.old) (impl_for (declared self.old) trait_id.index self_type)) }
        ensures consistent { OnOk result (IsConsistent self.new) }
    {
        let header = reference(self.alloc, trait_id, &[self_type])?;
        let params = Vec::new(self.alloc);
        let clauses = Vec::new(self.alloc);
        self.add_own_impl(params, header, clauses)?;
        Ok(())
    }

    fn add_scalar_impls(&mut self, trait_id: TraitId) -> Result<(), AllocError>
        requires consistent { IsConsistent self.old }
        requires core { IsInCore (declared self.old) }
        ensures declared { OnOk result (declared self.new ≡ with_scalar_impls (declared self.old) trait_id.index) }
        ensures consistent { OnOk result (IsConsistent self.new) }
    {
        for scalar in &SCALARS {
            self.add_bare_impl(trait_id, *scalar)?;
        }
        Ok(())
    }

    /// `impl<'a, T> Tr for &'a T`
    fn add_ref_impl(&mut self, trait_id: TraitId) -> Result<(), AllocError>
        requires consistent { IsConsistent self.old }
        requires room { HasRoom (declared self.old) }
        ensures declared { OnOk result (declared self.new ≡ with_impl (declared self.old) (ref_impl (declared self.old) trait_id.index)) }
        ensures consistent { OnOk result (IsConsistent self.new) }
    {
        let lifetime = param(self.alloc, b"a", ParamKind::Lifetime)?;
        let referred = param(self.alloc, b"T", ParamKind::Type)?;
        let params = vec![in self.alloc; lifetime, referred]?;
        let reference_cell = TermCell::Ref {
            region: Region {
                kind: RegionKind::ReEarlyParam(0),
            },
            mutability: Mutability::Not,
        };
        let header = reference(self.alloc, trait_id, &[TermCell::Param(1), reference_cell])?;
        let clauses = Vec::new(self.alloc);
        self.add_own_impl(params, header, clauses)?;
        Ok(())
    }

    /// `impl<T> Tr for *const T`, `impl<T> Tr for *mut T`
    fn add_pointer_impl(
        &mut self,
        trait_id: TraitId,
        mutability: Mutability,
    ) -> Result<(), AllocError>
        requires consistent { IsConsistent self.old }
        requires room { HasRoom (declared self.old) }
        ensures declared { OnOk result (declared self.new ≡ with_impl (declared self.old) (pointer_impl (declared self.old) trait_id.index mutability)) }
        ensures consistent { OnOk result (IsConsistent self.new) }
    {
        let params = vec![in self.alloc; param(self.alloc, b"T", ParamKind::Type)?]?;
        let header = reference(
            self.alloc,
            trait_id,
            &[TermCell::Param(0), TermCell::RawPtr { mutability }],
        )?;
        let clauses = Vec::new(self.alloc);
        self.add_own_impl(params, header, clauses)?;
        Ok(())
    }

    /// `impl<T, const N> Tr for [T; N] where T: Tr`
    fn add_array_impl(&mut self, trait_id: TraitId) -> Result<(), AllocError>
        requires consistent { IsConsistent self.old }
        requires room { HasRoom (declared self.old) }
        ensures declared { OnOk result (declared self.new ≡ with_impl (declared self.old) (array_impl (declared self.old) trait_id.index)) }
        ensures consistent { OnOk result (IsConsistent self.new) }
    {
        let item = param(self.alloc, b"T", ParamKind::Type)?;
        let len = param(self.alloc, b"N", ParamKind::Const)?;
        let params = vec![in self.alloc; item, len]?;
        let header = reference(
            self.alloc,
            trait_id,
            &[
                TermCell::Param(0),
                TermCell::Const(ConstKind::Param(1)),
                TermCell::Array,
            ],
        )?;
        let clause = reference(self.alloc, trait_id, &[TermCell::Param(0)])?;
        let clauses = one_reference(self.alloc, clause)?;
        self.add_own_impl(params, header, clauses)?;
        Ok(())
    }

    /// `impl<T> Clone for Box<T> where T: Clone`
    fn add_box_impl(&mut self) -> Result<(), AllocError>
        requires consistent { IsConsistent self.old }
        requires room { HasRoom (declared self.old) }
        ensures declared { OnOk result (declared self.new ≡ with_impl (declared self.old) (boxed_impl (declared self.old))) }
        ensures consistent { OnOk result (IsConsistent self.new) }
    {
        let params = vec![in self.alloc; param(self.alloc, b"T", ParamKind::Type)?]?;
        let boxed = TermCell::Adt {
            id: AdtId { index: 0 },
            args: 1,
        };
        let header = reference(self.alloc, CLONE, &[TermCell::Param(0), boxed])?;
        let clause = reference(self.alloc, CLONE, &[TermCell::Param(0)])?;
        let clauses = one_reference(self.alloc, clause)?;
        self.add_own_impl(params, header, clauses)?;
        Ok(())
    }

    /// The impls of `Clone`, or of `Copy`.
    fn add_copied(&mut self, trait_id: TraitId) -> Result<(), AllocError>
        requires consistent { IsConsistent self.old }
        requires core { IsInCore (declared self.old) }
        ensures declared { OnOk result (declared self.new ≡ with_core_impls (declared self.old) (copied (length (declared self.old).impls) trait_id.index)) }
        ensures consistent { OnOk result (IsConsistent self.new) }
    {
        self.add_scalar_impls(trait_id)?;
        self.add_ref_impl(trait_id)?;
        self.add_pointer_impl(trait_id, Mutability::Not)?;
        self.add_pointer_impl(trait_id, Mutability::Mut)?;
        self.add_array_impl(trait_id)?;
        Ok(())
    }

    /// Tables with `core` and its items. Fails only if memory is refused.
    pub fn new(alloc: Global) -> Result<Self, AllocError>
        ensures declared { IfOk result (λ t. declared t ≡ nothing_declared) }
        ensures consistent { IfOk result (λ t. IsConsistent t) }
    {
        let mut tables = Tables::core_alone(alloc)?;
        tables.add_box()?;
        tables.add_wrapper()?;
        tables.add_first_traits()?;
        tables.add_second_traits()?;
        tables.add_third_traits()?;
        tables.add_copied(CLONE)?;
        tables.add_box_impl()?;
        tables.add_copied(COPY)?;
        Ok(tables)
    }
}
