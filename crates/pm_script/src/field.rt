//! The fields of a line: a cache's number, a key and a value.

ghost use Rattle.std.specs.Prelude.{◌≡◌, ◌<◌, ◌≤◌, length, take, IfOk, IfSome};
ghost use Rattle.std.specs.List.{list_all};
ghost use Rattle.std.specs.Option.{option_map};
ghost use Rattle.std.specs.Result.{result_ok};
ghost use Rattle.hex.specs.Hex.{decode_of};
ghost use Rattle.pm_script.specs.Grammar.{bounded, cache_of, is_graphic, is_in_digits, is_plain};
ghost use Rattle.pm_script.specs.Grammar.{key_of, value_of};

use pm_types::{CACHES, KEY_MAX, Key, VALUE_MAX, Value};
use std::alloc::{AllocError, Global};

/// The cache that the word names.
pub(crate) fn cache_number(word: &[u8]) -> Option<u8>
    ensures cache { result ≡ cache_of word.now }
    ensures there { IfSome result (λ cache. cache < CACHES) }
{
    match word {
        [digit @ b'0'..=b'9'] => Some(*digit - b'0'),
        [b'1', digit @ b'0'..=b'5'] => Some(*digit - b'0' + 10),
        _ => None,
    }
}

/// The key that the word stands for.
pub(crate) fn read_key(alloc: Global, word: &[u8]) -> Result<Option<Key>, AllocError>
    ensures { IfOk result (λ key. key ≡ key_of word.now) }
{
    if is_plain(word) && word.len() <= KEY_MAX {
        return Ok(Some(Key::of(alloc, word)?));
    }
    if !is_in_digits(word) {
        return Ok(None);
    }
    let mut buffer = [0; KEY_MAX];
    match read_digits(&word[2..], &mut buffer) {
        Some(len) if len > 0 => Ok(Some(Key::of(alloc, &buffer[..len])?)),
        _ => Ok(None),
    }
}

/// The value that the word stands for.
pub(crate) fn read_value(alloc: Global, word: &[u8]) -> Result<Option<Value>, AllocError>
    ensures { IfOk result (λ value. value ≡ value_of word.now) }
{
    if is_plain(word) && word.len() <= VALUE_MAX {
        return Ok(Some(Value::of(alloc, word)?));
    }
    if !is_in_digits(word) {
        return Ok(None);
    }
    let mut buffer = [0; VALUE_MAX];
    match read_digits(&word[2..], &mut buffer) {
        Some(len) => Ok(Some(Value::of(alloc, &buffer[..len])?)),
        None => Ok(None),
    }
}

// Puts the bytes that the digits say at the front of `into`, and says how many they are. Where they
// are no even number of digits, or say more bytes than there is room for, it says so.
#[tactic(auto, using(crate::proofs::Digits::many_digits))]
fn read_digits(digits: &[u8], into: &mut [u8]) -> Option<usize>
    ensures bytes { option_map (λ len. take len into.new) result
        ≡ bounded 0 (length into.old) (result_ok (decode_of digits.now)) }
    ensures fits { IfSome result (λ len. len ≤ length into.old) }
{
    let len = digits.len() / 2;
    if len > into.len() {
        return None;
    }
    match hex::decode_to_slice(digits, &mut into[..len]) {
        Ok(()) => Some(len),
        Err(_) => None,
    }
}

// Whether the word begins as one that has its bytes in digits.
fn is_in_digits(word: &[u8]) -> bool
    ensures { result ≡ is_in_digits word.now }
{
    word.starts_with(b"x:")
}

/// Whether the word stands for itself.
pub(crate) fn is_plain(word: &[u8]) -> bool
    ensures { result ≡ is_plain word.now }
{
    !word.is_empty() && is_all_graphic(word) && !is_in_digits(word)
}

fn is_all_graphic(word: &[u8]) -> bool
    ensures { result ≡ list_all is_graphic word.now }
{
    word.iter().all(|b| *b >= 0x21 && *b <= 0x7e)
}
