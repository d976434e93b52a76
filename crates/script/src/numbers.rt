// Numbers and bytes as a script spells them.
ghost use Rattle.std.specs.Prelude.{◌≡◌, ◌+◌, ◌^◌, ◌<◌, ◌≤◌, IfSome, Some, None};
ghost use Rattle.script.specs.Digits.{digit_in};
ghost use Rattle.script.specs.Faults.{Read};
ghost use Rattle.script.specs.Spelled.{below, more, spelled, number_of, pattern_of, hex_byte, hex_bytes, hex_of};

use super::fault::Fault;
use std::alloc::Global;

// The value of a digit of a base, a letter in either case.
fn digit(b: u8, base: u32) -> Option<u32>
    requires { (2 ≤ base) × (base ≤ 36) }
    ensures value { result ≡ digit_in base b }
    ensures bound { IfSome result (λ d. d < base) }
{
    char::from(b).to_digit(base)
}

// A number with one more digit, where that is one and the number fits 64 bits.
fn add_digit(n: u64, b: u8, base: u32) -> Option<u64>
    requires { (2 ≤ base) × (base ≤ 36) }
    ensures { result ≡ more base (2 ^ 64) n (digit_in base b) }
{
    let digit = digit(b, base)?;
    n.checked_mul(base as u64)?.checked_add(digit as u64)
}

// The number that a word's digits spell, where all are digits and it fits 64 bits.
fn spelled(word: &[u8], base: u32) -> Option<u64>
    requires { (2 ≤ base) × (base ≤ 36) }
    ensures { result ≡ below (2 ^ 64) (spelled (digit_in base) base 0 word.now) }
{
    let mut n = 0;
    for b in word {
        n = add_digit(n, *b, base)?;
    }
    Some(n)
}

// A decimal number of 32 bits.
pub fn number(word: &[u8]) -> Option<u32>
    ensures { result ≡ number_of word.now }
{
    if word.is_empty() {
        return None;
    }
    let n = spelled(word, 10)?;
    u32::try_from(n).ok()
}

// A pattern: 1 to 16 hexadecimal digits.
pub fn pattern(word: &[u8]) -> Option<u64>
    ensures { result ≡ pattern_of word.now }
{
    if word.is_empty() || word.len() > 16 {
        return None;
    }
    spelled(word, 16)
}

// The byte of two hexadecimal digits.
fn hex_byte(high: u8, low: u8) -> Option<u8>
    ensures { result ≡ hex_byte high low }
{
    let high = digit(high, 16)? as u8;
    let low = digit(low, 16)? as u8;
    Some(high * 16 + low)
}

// Bytes, of two hexadecimal digits each.
fn hex_bytes(word: &[u8], heap: Global) -> Result<Vec<u8>, Fault>
    ensures { Read result (λ v. hex_bytes word.now ≡ Some v.items) (hex_bytes word.now ≡ None) }
{
    let (pairs, rest) = word.as_chunks::<2>();
    if !rest.is_empty() {
        return Err(Fault::Bad);
    }
    let mut bytes = Vec::new(heap);
    for [high, low] in pairs {
        let b = hex_byte(*high, *low).ok_or(Fault::Bad)?;
        bytes.push(b)?;
    }
    Ok(bytes)
}

// Bytes: two hexadecimal digits for each, or `-` for none.
pub fn hex(word: &[u8], heap: Global) -> Result<Vec<u8>, Fault>
    ensures { Read result (λ v. hex_of word.now ≡ Some v.items) (hex_of word.now ≡ None) }
{
    match word {
        b"" => Err(Fault::Bad),
        b"-" => Ok(Vec::new(heap)),
        _ => hex_bytes(word, heap),
    }
}
