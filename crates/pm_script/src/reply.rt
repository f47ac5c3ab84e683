//! The texts of replies.

ghost use Rattle.std.specs.Prelude.{◌≡◌, ◌≤◌, ◌++◌, length, OnOk, OnErr};
ghost use Rattle.std.specs.List.{flat_map};
ghost use Rattle.hex.specs.Hex.{encode_lower};
ghost use Rattle.pm_script.specs.Texts.{text_of, pair_text, end_text, field_text, IsOnto, EachHasText};
ghost use Rattle.pm_script.specs.Texts.{FieldsReadBack, TextsDiffer};

use crate::field::is_plain;
use itoa::Buffer;
use pm_model::{PairList, Reply};
use pm_types::{Key, VALUE_MAX, Value};
use std::alloc::AllocError;

// The digits of the longest value.
const DIGITS_MAX: usize = 2 * VALUE_MAX;

/// Appends the text of a reply. Where memory runs out, `into` is left as it was.
pub fn print_reply(reply: &Reply, into: &mut Vec<u8>) -> Result<(), AllocError>
    ensures appended { OnOk result (into.new.items ≡ into.old.items ++ text_of reply.now) }
    ensures unchanged { OnErr result (into.new.items ≡ into.old.items) }
{
    let before = into.len();
    let appended = append_reply(reply, into);
    if appended.is_err() {
        into.truncate(before);
    }
    appended
}

// Appends the text of a reply, or a part of it where memory runs out.
fn append_reply(reply: &Reply, into: &mut Vec<u8>) -> Result<(), AllocError>
    ensures appended { OnOk result (into.new.items ≡ into.old.items ++ text_of reply.now) }
    ensures onto { OnErr result (IsOnto into.old.items into.new.items) }
{
    match reply {
        Reply::Done => into.extend_from_slice(b"ok\n"),
        Reply::Found(value) => append_value(value, into),
        Reply::Absent => into.extend_from_slice(b"none\n"),
        Reply::Was(true) => into.extend_from_slice(b"true\n"),
        Reply::Was(false) => into.extend_from_slice(b"false\n"),
        Reply::Pairs(list) => append_pairs(list, into),
        Reply::Full => into.extend_from_slice(b"error full\n"),
        Reply::BadLine => into.extend_from_slice(b"error line\n"),
        Reply::LongLine => into.extend_from_slice(b"error long\n"),
    }
}

// Appends the text of a value.
fn append_value(value: &Value, into: &mut Vec<u8>) -> Result<(), AllocError>
    ensures appended { OnOk result
        (into.new.items ≡ into.old.items ++ text_of (Reply.Found value.now)) }
    ensures onto { OnErr result (IsOnto into.old.items into.new.items) }
{
    into.extend_from_slice(b"value ")?;
    append_field(value.bytes(), into)?;
    into.extend_from_slice(b"\n")
}

// Appends the text of pairs.
fn append_pairs(list: &PairList, into: &mut Vec<u8>) -> Result<(), AllocError>
    ensures appended { OnOk result
        (into.new.items ≡ into.old.items ++ text_of (Reply.Pairs list.now)) }
    ensures onto { OnErr result (IsOnto into.old.items into.new.items) }
{
    append_each(&list.pairs, into)?;
    append_end(list.pairs.len(), into)
}

// Appends the line of each pair.
fn append_each(pairs: &[(Key, Value)], into: &mut Vec<u8>) -> Result<(), AllocError>
    ensures appended { OnOk result
        (into.new.items ≡ into.old.items ++ flat_map pair_text pairs.now) }
    ensures onto { OnErr result (IsOnto into.old.items into.new.items) }
{
    'each: for (key, value) in pairs {
        append_pair(key, value, into)?;
    }
    Ok(())
}

// Appends the line of a pair.
fn append_pair(key: &Key, value: &Value, into: &mut Vec<u8>) -> Result<(), AllocError>
    ensures appended { OnOk result
        (into.new.items ≡ into.old.items ++ pair_text (key.now, value.now)) }
    ensures onto { OnErr result (IsOnto into.old.items into.new.items) }
{
    into.extend_from_slice(b"pair ")?;
    append_field(key.bytes(), into)?;
    into.extend_from_slice(b" ")?;
    append_field(value.bytes(), into)?;
    into.extend_from_slice(b"\n")
}

// Appends the line that ends pairs.
fn append_end(count: usize, into: &mut Vec<u8>) -> Result<(), AllocError>
    ensures appended { OnOk result (into.new.items ≡ into.old.items ++ end_text count) }
    ensures onto { OnErr result (IsOnto into.old.items into.new.items) }
{
    into.extend_from_slice(b"end ")?;
    into.extend_from_slice(Buffer::new().format(count).as_bytes())?;
    into.extend_from_slice(b"\n")
}

/// Appends the text of a key or a value: itself where it is plain, and else `x:` and two hexadecimal digits for
/// each byte. Where memory runs out, a part of it may have been appended.
pub fn append_field(bytes: &[u8], into: &mut Vec<u8>) -> Result<(), AllocError>
    requires { length bytes.now ≤ VALUE_MAX }
    ensures appended { OnOk result (into.new.items ≡ into.old.items ++ field_text bytes.now) }
    ensures onto { OnErr result (IsOnto into.old.items into.new.items) }
{
    if is_plain(bytes) {
        return into.extend_from_slice(bytes);
    }
    into.extend_from_slice(b"x:")?;
    append_digits(bytes, into)
}

// Appends two hexadecimal digits for each byte.
fn append_digits(bytes: &[u8], into: &mut Vec<u8>) -> Result<(), AllocError>
    requires { length bytes.now ≤ VALUE_MAX }
    ensures appended { OnOk result (into.new.items ≡ into.old.items ++ encode_lower bytes.now) }
    ensures unchanged { OnErr result (into.new.items ≡ into.old.items) }
{
    let mut buffer = [0; DIGITS_MAX];
    let digits = &mut buffer[..2 * bytes.len()];
    hex::encode_to_slice(bytes, digits).unwrap();
    into.extend_from_slice(digits)
}

/// No reply's text is empty: who reads the texts sees of each line that it was answered.
pub fn each_reply_has_text()
    ensures { EachHasText }
{}

/// The text of a key or a value, read as a field of a line, stands for the same bytes.
pub fn fields_read_back()
    ensures { FieldsReadBack }
{}

/// No two replies have one text, unless they are one.
pub fn texts_differ()
    ensures { TextsDiffer }
{}
