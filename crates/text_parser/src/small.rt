//! Numbers of 32 and of 64 bits. What cannot come in a line without a fault becomes 0, and no clause says so.
ghost use Rattle.std.specs.Prelude.{◌≡◌, ◌+◌, ◌-◌, ◌*◌, ◌^◌, ◌<◌, ◌≤◌, MatchOption};
ghost use Rattle.text_language.specs.Tokens.{number_from};

use type_terms::{MAX_INDEX, TraitId};

/// The number, if it is below the greatest number of an item, and otherwise 0.
pub(crate) fn small(number: usize) -> u32
    ensures within { result < MAX_INDEX }
    ensures same { number < MAX_INDEX → result ≡ number }
{
    if number < MAX_INDEX as usize {
        number as u32
    } else {
        0
    }
}

/// The trait with this number, if that is below the greatest.
pub(crate) fn trait_id(number: usize) -> TraitId
    ensures { number < MAX_INDEX → result.index ≡ number }
{
    TraitId {
        index: small(number),
    }
}

/// The sum, if it is below the greatest number of an item, and otherwise 0.
pub(crate) fn small_sum(first: usize, place: usize) -> u32
    ensures within { result < MAX_INDEX }
    ensures same { first + place < MAX_INDEX → result ≡ first + place }
{
    match first.checked_add(place) {
        Some(sum) => small(sum),
        None => 0,
    }
}

/// The number with one more digit, if it stays below 2^64.
fn with_digit(value: u64, digit: u8) -> Option<u64>
    ensures { MatchOption result (2 ^ 64 ≤ 10 * value + (digit - 48)) (λ n. n ≡ 10 * value + (digit - 48)) }
{
    match value.checked_mul(10) {
        Some(tens) => tens.checked_add(digit.saturating_sub(b'0') as u64),
        None => None,
    }
}

/// The number that these digits write, if it is below 2^64, and otherwise 0.
pub(crate) fn number_of(digits: &[u8]) -> u64
    ensures { number_from 0 digits.now < 2 ^ 64 → result ≡ number_from 0 digits.now }
{
    let mut value: u64 = 0;
    for digit in digits {
        match with_digit(value, *digit) {
            Some(more) => value = more,
            None => return 0,
        }
    }
    value
}
