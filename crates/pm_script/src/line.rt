//! What a line says.

ghost use Rattle.std.specs.Prelude.{◌≡◌, ◌<◌, ◌∷◌, IfOk, IfSome};
ghost use Rattle.pm_model.specs.Batches.{HasCache};
ghost use Rattle.pm_script.specs.Grammar.{checkpoint_of, scan_of, get_or_remove_of, put_of, key_of};
ghost use Rattle.pm_script.specs.Grammar.{value_of, words_of, line_of_words, line_of};

use crate::field::{cache_number, read_key, read_value};
use crate::word::first_word;
use pm_model::{Cmd, Line};
use pm_types::{CACHES, LINE_MAX};
use std::alloc::{AllocError, Global};

/// Reads a line, given without its newline. Only its key and its value are copied.
///
/// A line of more than `LINE_MAX` bytes is long, so its first `LINE_MAX + 1` bytes say what all do.
pub fn read_line(alloc: Global, bytes: &[u8]) -> Result<Line, AllocError>
    ensures line { IfOk result (λ line. line ≡ line_of bytes.now) }
    ensures cache { IfOk result HasCache }
{
    if bytes.len() > LINE_MAX {
        return Ok(Line::Long);
    }
    let (name, rest) = first_word(bytes);
    let Some(rest) = rest else {
        return Ok(checkpoint_line(name));
    };
    let (cache, rest) = first_word(rest);
    match rest {
        None => Ok(scan_line(name, cache_number(cache))),
        Some(rest) => read_fields(alloc, name, cache, rest),
    }
}

// What a line says, by its first two words and what stands after them.
#[tactic(auto, using(crate::proofs::Spaces::too_many))]
fn read_fields(alloc: Global, name: &[u8], cache: &[u8], rest: &[u8]) -> Result<Line, AllocError>
    ensures line { IfOk result
        (λ line. line ≡ line_of_words (name.now ∷ cache.now ∷ words_of rest.now)) }
    ensures cache { IfOk result HasCache }
{
    let cache = cache_number(cache);
    let (key, rest) = first_word(rest);
    let Some(rest) = rest else {
        return get_or_remove_line(alloc, name, cache, key);
    };
    let (value, rest) = first_word(rest);
    match rest {
        None => put_line(alloc, name, cache, key, value),
        Some(_fifth) => Ok(Line::Bad),
    }
}

// What the word of a line of one says.
fn checkpoint_line(name: &[u8]) -> Line
    ensures line { result ≡ checkpoint_of name.now }
    ensures cache { HasCache result }
{
    if name == b"checkpoint".as_slice() {
        Line::Good(Cmd::Checkpoint)
    } else {
        Line::Bad
    }
}

// What the words of a line of two say.
fn scan_line(name: &[u8], cache: Option<u8>) -> Line
    requires { IfSome cache (λ c. c < CACHES) }
    ensures line { result ≡ scan_of name.now cache }
    ensures cache { HasCache result }
{
    let Some(cache) = cache else {
        return Line::Bad;
    };
    if name == b"scan".as_slice() {
        Line::Good(Cmd::Scan { cache })
    } else {
        Line::Bad
    }
}

// What the words of a line of three say.
fn get_or_remove_line(
    alloc: Global,
    name: &[u8],
    cache: Option<u8>,
    key: &[u8],
) -> Result<Line, AllocError>
    requires { IfSome cache (λ c. c < CACHES) }
    ensures line { IfOk result (λ line. line ≡ get_or_remove_of name.now cache (key_of key.now)) }
    ensures cache { IfOk result HasCache }
{
    let Some(cache) = cache else {
        return Ok(Line::Bad);
    };
    let Some(key) = read_key(alloc, key)? else {
        return Ok(Line::Bad);
    };
    if name == b"get".as_slice() {
        Ok(Line::Good(Cmd::Get { cache, key }))
    } else if name == b"remove".as_slice() {
        Ok(Line::Good(Cmd::Remove { cache, key }))
    } else {
        Ok(Line::Bad)
    }
}

// What the words of a line of four say.
fn put_line(
    alloc: Global,
    name: &[u8],
    cache: Option<u8>,
    key: &[u8],
    value: &[u8],
) -> Result<Line, AllocError>
    requires { IfSome cache (λ c. c < CACHES) }
    ensures line { IfOk result
        (λ line. line ≡ put_of name.now cache (key_of key.now) (value_of value.now)) }
    ensures cache { IfOk result HasCache }
{
    let Some(cache) = cache else {
        return Ok(Line::Bad);
    };
    let Some(key) = read_key(alloc, key)? else {
        return Ok(Line::Bad);
    };
    let Some(value) = read_value(alloc, value)? else {
        return Ok(Line::Bad);
    };
    if name == b"put".as_slice() {
        Ok(Line::Good(Cmd::Put { cache, key, value }))
    } else {
        Ok(Line::Bad)
    }
}
