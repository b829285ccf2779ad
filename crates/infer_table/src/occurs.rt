//! The occurs check.
ghost use Rattle.std.specs.Prelude.{◌≡◌, IfOk, OnOk, true, false};
ghost use Rattle.type_terms.specs.Promised.Label.{of_type};
ghost use Rattle.type_terms.specs.Promised.Handles.{Has, types, consts, trees_at};
ghost use Rattle.type_terms.specs.Promised.Handles.{ArgsHeld};
ghost use Rattle.type_terms.specs.Kinds.{args_trees};
ghost use Rattle.infer_table.specs.Solutions.{resolved, occurs};
ghost use Rattle.infer_table.specs.Content.{content, Ready, IsProper};
ghost use Rattle.infer_table.specs.Occurring.{IsWithout, Pushes, LooksAt};

use crate::infer_ctxt::InferCtxt;
use crate::known::{const_has_kind, type_has_kind};
use crate::parts::parts;
use crate::resolve::VALUE_FLAGS;
use std::alloc::AllocError;
use type_terms::entered::Entered;
use type_terms::interner::Interner;
use type_terms::kinds::{Const, GenericArgKind, Ty, TyKind};
use type_terms::number::TyVid;

impl InferCtxt {
    /// Whether the variable occurs in the type, once this is resolved.
    ///
    /// The search uses a worklist instead of the stack, so a type may be nested deeply. Each type is visited once, and a type
    /// without variables that can have values is not entered.
    pub(crate) fn occurs(&self, cx: &Interner, variable: TyVid, ty: Ty) -> Result<bool, AllocError>
        requires held { Has cx.now.entries types ty.0 }
        requires ready { Ready cx.now.entries self.now }
        ensures found { IfOk result (λ b. b
            ≡ occurs of_type variable.index (resolved (content cx.now.entries self.now.values) (trees_at cx.now.entries ty.0))) }
        ensures proper { IfOk result (λ b. b ≡ false → IsProper (trees_at cx.now.entries ty.0)) }
    {
        cx.lawful();
        let flags = cx.flags(ty).0;
        if flags & VALUE_FLAGS == 0 {
            return Ok(false);
        }
        let mut entered = Entered::new(self.alloc);
        let mut todo = Vec::new(self.alloc);
        todo.push(ty)?;
        'work: while let Some(next) = todo.pop() {
            let found = self.look_at(cx, variable, next, &mut entered, &mut todo)?;
            if found {
                return Ok(true);
            }
        }
        Ok(false)
    }

    /// Whether the type resolves to the variable itself. If not, the types in it are put on the list, unless that was done
    /// before.
    fn look_at(
        &self,
        cx: &Interner,
        variable: TyVid,
        ty: Ty,
        entered: &mut Entered,
        todo: &mut Vec<Ty>,
    ) -> Result<bool, AllocError>
        requires held { Has cx.now.entries types ty.0 }
        requires ready { Ready cx.now.entries self.now }
        ensures found { IfOk result (λ b. b ≡ true
            → occurs of_type variable.index (resolved (content cx.now.entries self.now.values) (trees_at cx.now.entries ty.0)) ≡ true) }
        ensures looked { IfOk result (λ b. b ≡ false
            → LooksAt cx.now.entries (content cx.now.entries self.now.values) variable.index ty entered.old entered.new todo.old.items todo.new.items) }
    {
        cx.lawful();
        type_has_kind(cx, ty);
        if cx.flags(ty).0 & VALUE_FLAGS == 0 {
            return Ok(false);
        }
        if entered.enter(ty) {
            return Ok(false);
        }
        let followed = self.shallow_resolve(cx, ty);
        match cx.kind(followed) {
            TyKind::Infer(other) => Ok(other.index == variable.index),
            kind => {
                let list = parts(self.alloc, cx, kind)?;
                self.push_types(cx, variable, &list, todo)?;
                Ok(false)
            }
        }
    }

    /// Puts the types among the arguments on the list. A lifetime or a constant has no type variable.
    fn push_types(
        &self,
        cx: &Interner,
        variable: TyVid,
        args: &[GenericArgKind],
        todo: &mut Vec<Ty>,
    ) -> Result<(), AllocError>
        requires held { ArgsHeld cx.now.entries args.now }
        requires ready { Ready cx.now.entries self.now }
        ensures pushed { OnOk result (Pushes cx.now.entries (content cx.now.entries self.now.values) variable.index
            (args_trees cx.now.entries args.now) todo.old.items todo.new.items) }
    {
        cx.lawful();
        'parts: for arg in args {
            match *arg {
                GenericArgKind::Ty(ty) => todo.push(ty)?,
                GenericArgKind::Const(constant) => {
                    self.constant_is_without(cx, variable, constant);
                }
                GenericArgKind::Lifetime(_) => {}
            }
        }
        Ok(())
    }

    /// No type variable occurs in a constant. This is a fact for proofs. It does nothing at run time.
    fn constant_is_without(&self, cx: &Interner, variable: TyVid, constant: Const)
        requires held { Has cx.now.entries consts constant.0 }
        requires ready { Ready cx.now.entries self.now }
        ensures without { IsWithout (content cx.now.entries self.now.values) variable.index (trees_at cx.now.entries constant.0) }
    {
        let _ = variable;
        const_has_kind(cx, constant);
        let followed = self.shallow_resolve_const(cx, constant);
        const_has_kind(cx, followed);
    }
}
