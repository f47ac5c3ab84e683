//! The text of each reply.

use pm_model::Reply;
use pm_script::{each_reply_has_text, fields_read_back, print_reply, texts_differ};
use pm_types::Value;
use std::process::Abort;

/// Looks that this is the text that the call appends.
fn look(rt: &(impl Abort + AllocGlobal), reply: &Reply, text: &[u8]) {
    let mut out = Vec::from_slice(rt.alloc(), b"ok\n").expect(rt, "a text");
    print_reply(reply, &mut out).expect(rt, "a text");
    let is_appended = out.get(..3) == Some(b"ok\n".as_slice()) && out.get(3..) == Some(text);
    assert!(rt; is_appended, "{text:?}");
}

#[test]
fn each_reply_has_its_text(rt: HostRuntime) {
    each_reply_has_text();
    fields_read_back();
    texts_differ();
    let found = [
        (b"v1".as_slice(), b"value v1\n".as_slice()),
        (b"", b"value x:\n"),
        (b"x:", b"value x:783a\n"),
        (b"\x00 \x0a\x0d~\x7f\xff", b"value x:00200a0d7e7fff\n"),
    ];
    for (bytes, text) in found {
        let value = Value::of(rt.alloc(), bytes).expect(&rt, "a value");
        look(&rt, &Reply::Found(value), text);
    }
    let plain = [
        (Reply::Done, b"ok\n".as_slice()),
        (Reply::Absent, b"none\n"),
        (Reply::Was(true), b"true\n"),
        (Reply::Was(false), b"false\n"),
        (Reply::Full, b"error full\n"),
        (Reply::BadLine, b"error line\n"),
        (Reply::LongLine, b"error long\n"),
    ];
    for (reply, text) in &plain {
        look(&rt, reply, text);
    }
}
