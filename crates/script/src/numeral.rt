// Decimal numbers and hexadecimal bytes.
ghost use Rattle.std.specs.Prelude.{◌≡◌, cond, Some, None, IfOk, option_map, vec_items};
ghost use Rattle.script.specs.Numerals.{numeral, number, hexadecimal, byte, bytes};

use crate::mistake::Fault;
use std::alloc::{AllocError, Global};

/// Whether a word is one decimal digit or more, and nothing else.
fn is_numeral(word: &str) -> bool
    ensures { result ≡ numeral word.now }
{
    !word.is_empty() && word.bytes().all(|b| char::from(b).is_digit(10))
}

/// The number that a word writes, at most `limit`.
pub fn number_in(word: &str, limit: u16) -> Result<u16, Fault>
    ensures { result ≡ number limit word.now }
{
    if !is_numeral(word) {
        return Err(Fault::NotANumber);
    }
    word.parse::<u16>()
        .ok()
        .filter(|value| *value <= limit)
        .ok_or(Fault::NumberTooLarge)
}

/// Whether a word is an even number of hexadecimal digits, and some.
fn is_hexadecimal(word: &str) -> bool
    ensures { result ≡ hexadecimal word.now }
{
    !word.is_empty() && word.len() % 2 == 0 && word.bytes().all(|b| char::from(b).is_digit(16))
}

/// The byte that two hexadecimal digits write, the high one first.
fn byte_of(high: u8, low: u8) -> Option<u8>
    ensures { result ≡ byte high low }
{
    let high = char::from(high).to_digit(16)?;
    let low = char::from(low).to_digit(16)?;
    Some((high * 16 + low) as u8)
}

/// The bytes that hexadecimal digits write, two to a byte; none where the word is not an even number of them, and some. The whole word
/// is tested first, so one that gives none takes no memory.
pub fn bytes_in(heap: Global, word: &str) -> Result<Option<Vec<u8>>, AllocError>
    ensures { IfOk result (λ r. option_map vec_items r ≡ cond (hexadecimal word.now) (Some (bytes word.now)) None) }
{
    if !is_hexadecimal(word) {
        return Ok(None);
    }
    // A loop: of a `collect` into an `Option` a proof does not know when it fails.
    let mut found = Vec::new(heap);
    let mut rest = word.as_bytes();
    while let [high, low, after @ ..] = rest {
        let Some(byte) = byte_of(*high, *low) else {
            return Ok(None);
        };
        found.push(byte)?;
        rest = after;
    }
    Ok(rest.is_empty().then_some(found))
}
