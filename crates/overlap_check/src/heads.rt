//! A quick test that finds most pairs of headers to be disjoint, without equating them.
ghost use Rattle.std.specs.Prelude.{◌≡◌, true};
ghost use Rattle.declarations.specs.Held.{ImplHeld};
ghost use Rattle.overlap_check.specs.Headers.{AreDisjointImpls};

use declarations::apart::are_apart;
use declarations::items::ImplDef;
use type_terms::interner::Interner;

/// Returns `true` only if the headers of two impls are disjoint: they have no common instance. It compares the arguments some levels deep,
/// and looks for one position with different constructors or constants, or with different terms that have no parameters and lifetimes.
/// rustc: `DeepRejectCtxt`.
///
/// Disjoint by this test:
///
/// - `impl<T> Show for V<[T]>` and `impl<T> Show for V<&T>`
/// - `impl<T> Show for S<u8, T>` and `impl<T> Show for S<bool, T>`
///
/// Disjoint, but not by this test:
///
/// - `impl<T> Show for (T, T)` and `impl Show for (u8, bool)`, because each position is compared alone.
/// - `impl<T> Show for fn(T)` and `impl Show for fn()`, because only structs, tuples, arrays, slices, references and raw pointers are
///   entered.
///
/// It takes no memory.
pub fn headers_differ(cx: &Interner, left: &ImplDef, right: &ImplDef) -> bool
    requires left { ImplHeld cx.now.entries left.now }
    requires right { ImplHeld cx.now.entries right.now }
    ensures { result ≡ true → AreDisjointImpls cx.now.entries left.now right.now }
{
    are_apart(cx, left.header.args, right.header.args)
}
