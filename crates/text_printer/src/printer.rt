//! Types and constants as text. Lifetimes, binders and bound variables are not printed, nor is the output `()` of a `fn`. The printer works
//! off a list of pieces, so it does not recurse, however deep a type is.
ghost use Rattle.std.specs.Prelude.{◌≡◌, ◌≢◌, ◌++◌, false, length, OnOk, codes, []};
ghost use Rattle.std.specs.Fmt.{decimal};
ghost use Rattle.type_terms.specs.Trees.{is_no_tree};
ghost use Rattle.type_terms.specs.Promised.Label.{tuple, fn_ptr, adt};
ghost use Rattle.type_terms.specs.Promised.Handles.{Has, trees_at, types, consts, bounds_lists};
ghost use Rattle.type_terms.specs.Terms.{Lawful};
ghost use Rattle.type_terms.specs.Kinds.{kind_trees, args_trees, tys_trees, autos_trees, int_number, uint_number, is_mut, KindHeld, TysHeld};
ghost use Rattle.type_terms.specs.Promised.Handles.{ArgsHeld};
ghost use Rattle.text_language.specs.Output.{type_text, int_name, ends_in_unit};
ghost use Rattle.text_printer.specs.Shown.{IsBeginning};
ghost use Rattle.text_printer.specs.Pieces.{ref_sign, raw_ptr_sign, arg_sign, more_args, PieceHeld, PrintsTrees, PrintsPiece, PushesTypes, PushesOutput, PrintsPrincipalOf, PrintsAutos, PrintsKind, PrintsAdt, PrintsTuple, PrintsFn, PrintsArg, PrintsTypes, PrintsArgs, PrintsMoreAutos};

use crate::names::{PrintNames, TermKind};
use crate::piece::Piece;
use std::alloc::AllocError;
use type_terms::interner::Interner;
use type_terms::kinds::{
    Bounds, Const, ConstKind, GenericArgKind, IntTy, Mutability, Ty, TyKind, UintTy,
};
use type_terms::region::Region;
use type_terms::{AdtId, TraitId};

/// Appends a number in decimal digits.
pub(crate) fn push_number(text: &mut Vec<u8>, number: u64) -> Result<(), AllocError>
    ensures { OnOk result (text.new.items ≡ text.old.items ++ decimal number) }
{
    let digits = number.to_string(*text.allocator())?;
    text.extend_from_slice(digits.as_bytes())?;
    Ok(())
}

fn int_text(int: IntTy) -> &'static [u8]
    ensures { result.now ≡ codes "i" ++ int_name (int_number int) }
{
    match int {
        IntTy::I8 => b"i8",
        IntTy::I16 => b"i16",
        IntTy::I32 => b"i32",
        IntTy::I64 => b"i64",
        IntTy::I128 => b"i128",
        IntTy::Isize => b"isize",
    }
}

fn uint_text(uint: UintTy) -> &'static [u8]
    ensures { result.now ≡ codes "u" ++ int_name (uint_number uint) }
{
    match uint {
        UintTy::U8 => b"u8",
        UintTy::U16 => b"u16",
        UintTy::U32 => b"u32",
        UintTy::U64 => b"u64",
        UintTy::U128 => b"u128",
        UintTy::Usize => b"usize",
    }
}

/// Appends the text of a constant.
///
/// Fails only if memory is refused. It may then have appended a part of the text.
pub fn print_const<N: PrintNames>(
    interner: &Interner,
    names: &N,
    value: Const,
    out: &mut Vec<u8>,
) -> Result<(), AllocError>
    requires { Has interner.now.entries consts value.0 }
    ensures { OnOk result (out.new.items ≡ out.old.items ++ type_text (N.names names.now) (trees_at interner.now.entries value.0)) }
{
    match interner.const_kind(value) {
        ConstKind::Value(number) => push_number(out, number),
        ConstKind::Param(index) => names.push_param(TermKind::Const, index, out),
        ConstKind::Placeholder(index) => names.push_placeholder(TermKind::Const, index, out),
        ConstKind::Bound(_, _) => Ok(()),
        ConstKind::Infer(vid) => names.push_unknown(TermKind::Const, vid.index, out),
    }
}

fn start_adt<'i, N: PrintNames>(
    interner: &'i Interner,
    names: &N,
    id: AdtId,
    args: &'i [GenericArgKind],
    stack: &mut Vec<Piece<'i>>,
    out: &mut Vec<u8>,
) -> Result<(), AllocError>
    requires { ArgsHeld interner.now.entries args.now }
    ensures { OnOk result (PrintsAdt (N.names names.now) interner.now.entries id.index args.now stack.old.items stack.new.items out.old.items out.new.items) }
{
    names.push_struct(id, out)?;
    stack.push(Piece::Args {
        rest: args,
        is_open: false,
    })?;
    Ok(())
}

fn ref_sign(mutability: Mutability) -> &'static [u8]
    ensures { result.now ≡ ref_sign (is_mut mutability) }
{
    match mutability {
        Mutability::Not => b"&",
        Mutability::Mut => b"&mut ",
    }
}

fn raw_ptr_sign(mutability: Mutability) -> &'static [u8]
    ensures { result.now ≡ raw_ptr_sign (is_mut mutability) }
{
    match mutability {
        Mutability::Not => b"*const ",
        Mutability::Mut => b"*mut ",
    }
}

fn start_ref<'i, N: PrintNames>(
    interner: &'i Interner,
    names: &N,
    ty: Ty,
    mutability: Mutability,
    stack: &mut Vec<Piece<'i>>,
    out: &mut Vec<u8>,
) -> Result<(), AllocError>
    requires { Has interner.now.entries types ty.0 }
    ensures { (r : Region) → OnOk result
        (PrintsKind (N.names names.now) interner.now.entries (TyKind.Ref r ty mutability) stack.old.items stack.new.items out.old.items out.new.items) }
{
    out.extend_from_slice(ref_sign(mutability))?;
    stack.push(Piece::Ty(ty))?;
    Ok(())
}

fn start_raw_ptr<'i, N: PrintNames>(
    interner: &'i Interner,
    names: &N,
    ty: Ty,
    mutability: Mutability,
    stack: &mut Vec<Piece<'i>>,
    out: &mut Vec<u8>,
) -> Result<(), AllocError>
    requires { Has interner.now.entries types ty.0 }
    ensures { OnOk result
        (PrintsKind (N.names names.now) interner.now.entries (TyKind.RawPtr ty mutability) stack.old.items stack.new.items out.old.items out.new.items) }
{
    out.extend_from_slice(raw_ptr_sign(mutability))?;
    stack.push(Piece::Ty(ty))?;
    Ok(())
}

fn start_slice<'i, N: PrintNames>(
    interner: &'i Interner,
    names: &N,
    ty: Ty,
    stack: &mut Vec<Piece<'i>>,
    out: &mut Vec<u8>,
) -> Result<(), AllocError>
    requires { Has interner.now.entries types ty.0 }
    ensures { OnOk result (PrintsKind (N.names names.now) interner.now.entries (TyKind.Slice ty) stack.old.items stack.new.items out.old.items out.new.items) }
{
    out.extend_from_slice(b"[")?;
    stack.push(Piece::Text(b"]"))?;
    stack.push(Piece::Ty(ty))?;
    Ok(())
}

fn start_array<'i, N: PrintNames>(
    interner: &'i Interner,
    names: &N,
    ty: Ty,
    len: Const,
    stack: &mut Vec<Piece<'i>>,
    out: &mut Vec<u8>,
) -> Result<(), AllocError>
    requires lawful { Lawful interner.now.entries }
    requires ty { Has interner.now.entries types ty.0 }
    requires len { Has interner.now.entries consts len.0 }
    ensures { OnOk result
        (PrintsKind (N.names names.now) interner.now.entries (TyKind.Array ty len) stack.old.items stack.new.items out.old.items out.new.items) }
{
    out.extend_from_slice(b"[")?;
    stack.extend_from_slice(&[
        Piece::Text(b"]"),
        Piece::Const(len),
        Piece::Text(b"; "),
        Piece::Ty(ty),
    ])?;
    Ok(())
}

/// Types with commas between them.
fn push_types<'i>(
    interner: &'i Interner,
    list: &'i [Ty],
    stack: &mut Vec<Piece<'i>>,
) -> Result<(), AllocError>
    requires lawful { Lawful interner.now.entries }
    requires held { TysHeld interner.now.entries list.now }
    ensures { OnOk result (PushesTypes interner.now.entries (tys_trees interner.now.entries list.now) stack.old.items stack.new.items) }
{
    match list.split_first() {
        None => Ok(()),
        Some((first, rest)) => {
            stack.push(Piece::Types(rest))?;
            stack.push(Piece::Ty(*first))?;
            Ok(())
        }
    }
}

fn tuple_end(items: &[Ty]) -> &'static [u8]
    ensures single { length items.now ≡ 1 → result.now ≡ codes ",)" }
    ensures others { length items.now ≢ 1 → result.now ≡ codes ")" }
{
    if items.len() == 1 { b",)" } else { b")" }
}

fn start_tuple<'i, N: PrintNames>(
    interner: &'i Interner,
    names: &N,
    items: &'i [Ty],
    stack: &mut Vec<Piece<'i>>,
    out: &mut Vec<u8>,
) -> Result<(), AllocError>
    requires lawful { Lawful interner.now.entries }
    requires held { TysHeld interner.now.entries items.now }
    ensures { OnOk result (PrintsTuple (N.names names.now) interner.now.entries items.now stack.old.items stack.new.items out.old.items out.new.items) }
{
    out.extend_from_slice(b"(")?;
    stack.push(Piece::Text(tuple_end(items)))?;
    push_types(interner, items, stack)?;
    Ok(())
}

/// Whether it is the type `()`.
fn is_unit(interner: &Interner, ty: Ty) -> bool
    requires lawful { Lawful interner.now.entries }
    requires held { Has interner.now.entries types ty.0 }
    ensures { result ≡ ends_in_unit (trees_at interner.now.entries ty.0) }
{
    match interner.kind(ty) {
        TyKind::Tuple(items) => match interner.tys(items).split_first() {
            None => true,
            Some(_) => false,
        },
        _ => false,
    }
}

/// What comes after the inputs of a `fn`.
fn push_output<'i>(
    interner: &'i Interner,
    output: Ty,
    stack: &mut Vec<Piece<'i>>,
) -> Result<(), AllocError>
    requires lawful { Lawful interner.now.entries }
    requires held { Has interner.now.entries types output.0 }
    ensures { OnOk result (PushesOutput interner.now.entries (trees_at interner.now.entries output.0) stack.old.items stack.new.items) }
{
    let unit = is_unit(interner, output);
    if unit {
        stack.push(Piece::Text(b")"))?;
        return Ok(());
    }
    stack.push(Piece::Ty(output))?;
    stack.push(Piece::Text(b") -> "))?;
    Ok(())
}

fn start_fn<'i, N: PrintNames>(
    interner: &'i Interner,
    names: &N,
    bound_vars: u32,
    list: &'i [Ty],
    stack: &mut Vec<Piece<'i>>,
    out: &mut Vec<u8>,
) -> Result<(), AllocError>
    requires lawful { Lawful interner.now.entries }
    requires held { TysHeld interner.now.entries list.now }
    requires output { is_no_tree (tys_trees interner.now.entries list.now) ≡ false }
    ensures { OnOk result (PrintsFn (N.names names.now) interner.now.entries bound_vars list.now stack.old.items stack.new.items out.old.items out.new.items) }
{
    match list.split_last() {
        None => unreachable!(),
        Some((output, inputs)) => {
            out.extend_from_slice(b"fn(")?;
            push_output(interner, *output, stack)?;
            push_types(interner, inputs, stack)?;
            Ok(())
        }
    }
}

/// The bounds of a `dyn` with a principal trait.
#[derive(Clone, Copy)]
struct PrincipalBounds<'i> {
    def_id: TraitId,
    args: &'i [GenericArgKind],
    autos: &'i [TraitId],
}

/// Begins a `dyn` with a principal trait.
fn start_principal<'i, N: PrintNames>(
    interner: &'i Interner,
    names: &N,
    bounds: PrincipalBounds<'i>,
    stack: &mut Vec<Piece<'i>>,
    out: &mut Vec<u8>,
) -> Result<(), AllocError>
    requires { ArgsHeld interner.now.entries bounds.args.now }
    ensures { OnOk result (PrintsPrincipalOf (N.names names.now) interner.now.entries
        bounds.entry.def_id.index bounds.entry.args.now bounds.entry.autos.now stack.old.items stack.new.items out.old.items out.new.items) }
{
    let PrincipalBounds {
        def_id,
        args,
        autos,
    } = bounds;
    out.extend_from_slice(b"dyn ")?;
    names.push_trait(def_id, out)?;
    stack.push(Piece::Autos(autos))?;
    stack.push(Piece::Args {
        rest: args,
        is_open: false,
    })?;
    Ok(())
}

/// Begins a `dyn` of auto traits alone.
fn start_autos<'i, N: PrintNames>(
    interner: &'i Interner,
    names: &N,
    autos: &'i [TraitId],
    stack: &mut Vec<Piece<'i>>,
    out: &mut Vec<u8>,
) -> Result<(), AllocError>
    ensures { OnOk result
        (PrintsAutos (N.names names.now) interner.now.entries (autos_trees autos.now) stack.old.items stack.new.items out.old.items out.new.items) }
{
    out.extend_from_slice(b"dyn ")?;
    match autos.split_first() {
        None => Ok(()),
        Some((first, rest)) => {
            names.push_trait(*first, out)?;
            stack.push(Piece::Autos(rest))?;
            Ok(())
        }
    }
}

fn start_dyn<'i, N: PrintNames>(
    interner: &'i Interner,
    names: &N,
    bounds: Bounds,
    region: Region,
    stack: &mut Vec<Piece<'i>>,
    out: &mut Vec<u8>,
) -> Result<(), AllocError>
    requires { Has interner.now.entries bounds_lists bounds.0 }
    ensures { OnOk result
        (PrintsKind (N.names names.now) interner.now.entries (TyKind.Dynamic bounds region) stack.old.items stack.new.items out.old.items out.new.items) }
{
    let data = interner.bounds(bounds);
    match data.principal {
        None => {
            start_autos(interner, names, &data.autos, stack, out)?;
            Ok(())
        }
        Some(principal) => {
            let args = interner.args(principal.args);
            let named = PrincipalBounds {
                def_id: principal.def_id,
                args,
                autos: &data.autos,
            };
            start_principal(interner, names, named, stack, out)?;
            Ok(())
        }
    }
}

/// The first step at a type.
fn start_kind<'i, N: PrintNames>(
    interner: &'i Interner,
    names: &N,
    kind: TyKind,
    stack: &mut Vec<Piece<'i>>,
    out: &mut Vec<u8>,
) -> Result<(), AllocError>
    requires lawful { Lawful interner.now.entries }
    requires held { KindHeld interner.now.entries kind }
    ensures { OnOk result (PrintsKind (N.names names.now) interner.now.entries kind stack.old.items stack.new.items out.old.items out.new.items) }
{
    match kind {
        TyKind::Bool => out.extend_from_slice(b"bool"),
        TyKind::Char => out.extend_from_slice(b"char"),
        TyKind::Int(int) => out.extend_from_slice(int_text(int)),
        TyKind::Uint(uint) => out.extend_from_slice(uint_text(uint)),
        TyKind::Str => out.extend_from_slice(b"str"),
        TyKind::Never => out.extend_from_slice(b"!"),
        TyKind::Adt(id, args) => { start_adt(interner, names, id, interner.args(args), stack, out) }
        TyKind::Ref(_, ty, mutability) => start_ref(interner, names, ty, mutability, stack, out),
        TyKind::RawPtr(ty, mutability) => {
            start_raw_ptr(interner, names, ty, mutability, stack, out)
        }
        TyKind::Array(ty, len) => start_array(interner, names, ty, len, stack, out),
        TyKind::Slice(ty) => start_slice(interner, names, ty, stack, out),
        TyKind::Tuple(items) => { start_tuple(interner, names, interner.tys(items), stack, out) }
        TyKind::FnPtr(bound_vars, tys) => {
            start_fn(interner, names, bound_vars, interner.tys(tys), stack, out)
        }
        TyKind::Dynamic(bounds, region) => {
            start_dyn(interner, names, bounds, region, stack, out)
        }
        TyKind::Param(index) => names.push_param(TermKind::Ty, index, out),
        TyKind::Placeholder(index) => names.push_placeholder(TermKind::Ty, index, out),
        TyKind::Bound(_, _) => Ok(()),
        TyKind::Infer(vid) => names.push_unknown(TermKind::Ty, vid.index, out),
    }
}

/// The first step at the type of a handle.
fn start_type<'i, N: PrintNames>(
    interner: &'i Interner,
    names: &N,
    ty: Ty,
    stack: &mut Vec<Piece<'i>>,
    out: &mut Vec<u8>,
) -> Result<(), AllocError>
    requires lawful { Lawful interner.now.entries }
    requires held { Has interner.now.entries types ty.0 }
    ensures { OnOk result (PrintsTrees (N.names names.now) interner.now.entries
        (trees_at interner.now.entries ty.0) stack.old.items stack.new.items out.old.items out.new.items) }
{
    start_kind(interner, names, interner.kind(ty), stack, out)?;
    Ok(())
}

/// Prints a constant in one step.
fn start_const<'i, N: PrintNames>(
    interner: &'i Interner,
    names: &N,
    value: Const,
    stack: &mut Vec<Piece<'i>>,
    out: &mut Vec<u8>,
) -> Result<(), AllocError>
    requires lawful { Lawful interner.now.entries }
    requires held { Has interner.now.entries consts value.0 }
    ensures { OnOk result (PrintsTrees (N.names names.now) interner.now.entries
        (trees_at interner.now.entries value.0) stack.old.items stack.new.items out.old.items out.new.items) }
{
    print_const(interner, names, value, out)?;
    Ok(())
}

/// The next of the types after commas.
fn next_type<'i, N: PrintNames>(
    interner: &'i Interner,
    names: &N,
    list: &'i [Ty],
    stack: &mut Vec<Piece<'i>>,
    out: &mut Vec<u8>,
) -> Result<(), AllocError>
    requires lawful { Lawful interner.now.entries }
    requires held { TysHeld interner.now.entries list.now }
    ensures { OnOk result (PrintsTypes (N.names names.now) interner.now.entries
        (tys_trees interner.now.entries list.now) stack.old.items stack.new.items out.old.items out.new.items) }
{
    match list.split_first() {
        None => Ok(()),
        Some((first, rest)) => {
            out.extend_from_slice(b", ")?;
            stack.push(Piece::Types(rest))?;
            start_type(interner, names, *first, stack, out)?;
            Ok(())
        }
    }
}

/// What comes before an argument.
fn arg_sign(is_open: bool) -> &'static [u8]
    ensures { result.now ≡ arg_sign is_open }
{
    if is_open { b", " } else { b"<" }
}

/// What is left of a list of arguments, and whether its `<` is printed.
#[derive(Clone, Copy)]
struct ArgsLeft<'i> {
    rest: &'i [GenericArgKind],
    is_open: bool,
}

fn next_type_arg<'i, N: PrintNames>(
    interner: &'i Interner,
    names: &N,
    ty: Ty,
    left: ArgsLeft<'i>,
    stack: &mut Vec<Piece<'i>>,
    out: &mut Vec<u8>,
) -> Result<(), AllocError>
    requires lawful { Lawful interner.now.entries }
    requires held { Has interner.now.entries types ty.0 }
    requires rest { ArgsHeld interner.now.entries left.rest.now }
    ensures { OnOk result (PrintsArg (N.names names.now) interner.now.entries left.entry.is_open
        (trees_at interner.now.entries ty.0) left.entry.rest.now stack.old.items stack.new.items out.old.items out.new.items) }
{
    let ArgsLeft { rest, is_open } = left;
    out.extend_from_slice(arg_sign(is_open))?;
    stack.push(Piece::Args {
        rest,
        is_open: true,
    })?;
    start_type(interner, names, ty, stack, out)?;
    Ok(())
}

fn next_const_arg<'i, N: PrintNames>(
    interner: &'i Interner,
    names: &N,
    value: Const,
    left: ArgsLeft<'i>,
    stack: &mut Vec<Piece<'i>>,
    out: &mut Vec<u8>,
) -> Result<(), AllocError>
    requires lawful { Lawful interner.now.entries }
    requires held { Has interner.now.entries consts value.0 }
    requires rest { ArgsHeld interner.now.entries left.rest.now }
    ensures { OnOk result (PrintsArg (N.names names.now) interner.now.entries left.entry.is_open
        (trees_at interner.now.entries value.0) left.entry.rest.now stack.old.items stack.new.items out.old.items out.new.items) }
{
    let ArgsLeft { rest, is_open } = left;
    out.extend_from_slice(arg_sign(is_open))?;
    stack.push(Piece::Args {
        rest,
        is_open: true,
    })?;
    start_const(interner, names, value, stack, out)?;
    Ok(())
}

fn end_args(is_open: bool, out: &mut Vec<u8>) -> Result<(), AllocError>
    ensures { OnOk result (out.new.items ≡ out.old.items ++ more_args is_open []) }
{
    if is_open {
        out.extend_from_slice(b">")?;
    }
    Ok(())
}

fn next_arg<'i, N: PrintNames>(
    interner: &'i Interner,
    names: &N,
    list: &'i [GenericArgKind],
    is_open: bool,
    stack: &mut Vec<Piece<'i>>,
    out: &mut Vec<u8>,
) -> Result<(), AllocError>
    requires lawful { Lawful interner.now.entries }
    requires held { ArgsHeld interner.now.entries list.now }
    ensures { OnOk result (PrintsArgs (N.names names.now) interner.now.entries is_open
        (args_trees interner.now.entries list.now) stack.old.items stack.new.items out.old.items out.new.items) }
{
    match list.split_first() {
        None => {
            end_args(is_open, out)?;
            Ok(())
        }
        Some((first, rest)) => match *first {
            GenericArgKind::Lifetime(_) => {
                stack.push(Piece::Args { rest, is_open })?;
                Ok(())
            }
            GenericArgKind::Ty(ty) => {
                next_type_arg(interner, names, ty, ArgsLeft { rest, is_open }, stack, out)?;
                Ok(())
            }
            GenericArgKind::Const(value) => {
                next_const_arg(
                    interner,
                    names,
                    value,
                    ArgsLeft { rest, is_open },
                    stack,
                    out,
                )?;
                Ok(())
            }
        },
    }
}

/// The next of the auto traits after `+`.
fn next_auto<'i, N: PrintNames>(
    interner: &'i Interner,
    names: &N,
    list: &'i [TraitId],
    stack: &mut Vec<Piece<'i>>,
    out: &mut Vec<u8>,
) -> Result<(), AllocError>
    ensures { OnOk result
        (PrintsMoreAutos (N.names names.now) interner.now.entries (autos_trees list.now) stack.old.items stack.new.items out.old.items out.new.items) }
{
    match list.split_first() {
        None => Ok(()),
        Some((first, rest)) => {
            out.extend_from_slice(b" + ")?;
            names.push_trait(*first, out)?;
            stack.push(Piece::Autos(rest))?;
            Ok(())
        }
    }
}

/// The next step at a piece.
fn step<'i, N: PrintNames>(
    interner: &'i Interner,
    names: &N,
    piece: Piece<'i>,
    stack: &mut Vec<Piece<'i>>,
    out: &mut Vec<u8>,
) -> Result<(), AllocError>
    requires lawful { Lawful interner.now.entries }
    requires held { PieceHeld interner.now.entries piece }
    ensures { OnOk result (PrintsPiece (N.names names.now) interner.now.entries piece.entry stack.old.items stack.new.items out.old.items out.new.items) }
{
    match piece {
        Piece::Ty(ty) => start_type(interner, names, ty, stack, out),
        Piece::Const(value) => start_const(interner, names, value, stack, out),
        Piece::Text(text) => out.extend_from_slice(text),
        Piece::Types(list) => next_type(interner, names, list, stack, out),
        Piece::Args { rest, is_open } => next_arg(interner, names, rest, is_open, stack, out),
        Piece::Autos(list) => next_auto(interner, names, list, stack, out),
    }
}

/// Appends the text of a type, for any depth.
///
/// Fails only if memory is refused. It may then have appended a part of the text.
pub fn print_type<N: PrintNames>(
    interner: &Interner,
    names: &N,
    ty: Ty,
    out: &mut Vec<u8>,
) -> Result<(), AllocError>
    requires { Has interner.now.entries types ty.0 }
    ensures { OnOk result (out.new.items ≡ out.old.items ++ type_text (N.names names.now) (trees_at interner.now.entries ty.0)) }
{
    interner.lawful();
    let mut stack = Vec::new(*out.allocator());
    stack.push(Piece::Ty(ty))?;
    while let Some(piece) = stack.pop() {
        step(interner, names, piece, &mut stack, out)?;
    }
    Ok(())
}

/// Appends the text of a type, or the beginning of a long one. No piece of the text is begun once the output has this many bytes. A piece
/// is at most as long as a name. So the time is bounded for every type.
///
/// Fails only if memory is refused. It may then have appended a part of the text.
pub fn print_type_within<N: PrintNames>(
    interner: &Interner,
    names: &N,
    ty: Ty,
    limit: usize,
    out: &mut Vec<u8>,
) -> Result<(), AllocError>
    requires { Has interner.now.entries types ty.0 }
    ensures { OnOk result (IsBeginning (out.old.items ++ type_text (N.names names.now) (trees_at interner.now.entries ty.0)) out.new.items) }
{
    interner.lawful();
    let mut stack = Vec::new(*out.allocator());
    stack.push(Piece::Ty(ty))?;
    'pieces: while out.len() < limit {
        let Some(piece) = stack.pop() else {
            return Ok(());
        };
        step(interner, names, piece, &mut stack, out)?;
    }
    Ok(())
}
