//! Two rising lists, merged by rising numbers.
ghost use Rattle.std.specs.Prelude.{◌≡◌, ◌∷◌, [], ◌+◌, List, MatchOption, length, filter, Some, None};
ghost use Rattle.std.specs.List.{FoldsTo};
ghost use Rattle.declarations.specs.Merges.{IsMerge, IsNext, Rises};
ghost use Rattle.std.specs.Option.{option_map};
ghost use Rattle.declarations.specs.Relevant.{is_above, next_above, impl_indices, smaller_of};
ghost use Rattle.type_terms.specs.declared.ImplId.{ImplId};

use type_terms::ImplId;

/// Those of rising numbers that are above `last`, or all if there is none.
pub(crate) fn ids_above(ids: &[ImplId], last: Option<ImplId>) -> &[ImplId]
    requires { Rises ids.now }
    ensures { result.now ≡ filter (λ i. is_above last i.index) ids.now }
{
    match last {
        Some(last) => {
            let considered = ids.partition_point(|id| id.index <= last.index);
            &ids[considered..]
        }
        None => ids,
    }
}

/// The first of rising numbers that is above `last`.
pub(crate) fn first_above(ids: &[ImplId], last: Option<ImplId>) -> Option<ImplId>
    requires { Rises ids.now }
    ensures { option_map (λ i. i.index) result ≡ next_above last (impl_indices ids.now) }
{
    match ids_above(ids, last).first() {
        Some(id) => Some(*id),
        None => None,
    }
}

/// The smaller of two numbers. If only one exists, that one.
pub(crate) fn smaller(first: Option<ImplId>, second: Option<ImplId>) -> Option<ImplId>
    ensures { option_map (λ i. i.index) result ≡ smaller_of (option_map (λ i. i.index) first) (option_map (λ i. i.index) second) }
{
    match (first, second) {
        (Some(lower), Some(upper)) => {
            if lower.index < upper.index {
                first
            } else {
                second
            }
        }
        (Some(_), None) => first,
        (None, _) => second,
    }
}

/// The smaller of the first elements of two lists, with what remains of both.
pub(crate) fn split_smaller<'a>(
    first: &'a [ImplId],
    second: &'a [ImplId],
) -> Option<(ImplId, &'a [ImplId], &'a [ImplId])>
    ensures next { (ids : List ImplId) → IsMerge first.now second.now ids → Rises ids → MatchOption result (ids ≡ []) (λ r. IsNext r.0 r.1.now r.2.now ids) }
    ensures shorter { MatchOption result (Unit {0}) (λ r. length r.1.now + length r.2.now + 1 ≡ length first.now + length second.now) }
{
    match (first.split_first(), second.split_first()) {
        (None, None) => None,
        (Some((x, first_left)), None) => Some((*x, first_left, second)),
        (None, Some((y, second_left))) => Some((*y, first, second_left)),
        (Some((x, first_left)), Some((y, second_left))) => {
            if x.index < y.index {
                Some((*x, first_left, second))
            } else {
                Some((*y, first, second_left))
            }
        }
    }
}

/// Calls `f` at each number of two rising lists, by rising number.
pub(crate) fn for_each_merged<F: FnMut(ImplId)>(first: &[ImplId], second: &[ImplId], mut f: F)
    requires { F.IsAlwaysCallable f }
    ensures { (ids : List ImplId) → IsMerge first.now second.now ids → Rises ids → (last : F) × FoldsTo (λ p x q. F.step p x tt q) f ids last }
{
    let mut first = first;
    let mut second = second;
    'merge: while let Some((id, first_left, second_left)) = split_smaller(first, second) {
        f(id);
        first = first_left;
        second = second_left;
    }
}
