//! Texts that are refused, each by its name.

use pm_config::{ConfigFault, read_config_text};
use pm_types::Field;
use std::alloc::{AllocError, Global};
use std::process::Abort;

/// The name by which a text is refused, or nothing.
fn refusal(alloc: Global, text: &str) -> Option<ConfigFault> {
    read_config_text(alloc, text.as_bytes()).err()
}

/// Looks by which name a text is refused.
fn look(rt: &(impl Abort + AllocGlobal), text: &str, wanted: Option<ConfigFault>) {
    let length = text.len();
    assert_eq!(rt; refusal(rt.alloc(), text), wanted, "{length}: {text}");
}

#[test]
fn each_text_is_refused_by_the_first_test_that_it_fails(rt: HostRuntime) {
    let cases = [
        ("[1]", Field::Text),
        (" \n\t", Field::Text),
        ("{", Field::Text),
        ("{} {}", Field::Text),
        ("null", Field::Text),
        ("\"workers\"", Field::Text),
        ("{\"workers\":1e999}", Field::Text),
        ("{\"workers\":01}", Field::Text),
        ("{\"pages\":1}", Field::Unknown),
        ("{\"text\":1}", Field::Unknown),
        ("{\"Workers\":1}", Field::Unknown),
        ("{\"workers\":0,\"pages\":1}", Field::Unknown),
        ("{\"page_size\":1000}", Field::PageSize),
        ("{\"page_size\":4294971392}", Field::PageSize),
        ("{\"policy\":1,\"page_size\":512}", Field::PageSize),
        ("{\"workers\":1,\"frames\":63}", Field::Frames),
        ("{\"workers\":8,\"frames\":511}", Field::Frames),
        ("{\"workers\":1,\"buffer_pages\":31}", Field::BufferPages),
        ("{\"workers\":1.0}", Field::Workers),
        ("{\"workers\":1e0}", Field::Workers),
        ("{\"max_rows\":1e3}", Field::MaxRows),
        (
            "{\"checkpoint_bytes\":18446744073709551616}",
            Field::CheckpointBytes,
        ),
        (
            "{\"checkpoint_bytes\":18446744073709551615}",
            Field::CheckpointBytes,
        ),
        ("{\"workers\":-1}", Field::Workers),
        ("{\"workers\":\"2\"}", Field::Workers),
        ("{\"workers\":true}", Field::Workers),
        ("{\"workers\":null}", Field::Workers),
        ("{\"workers\":[2]}", Field::Workers),
        ("{\"policy\":\"Clock\"}", Field::Policy),
        ("{\"policy\":null}", Field::Policy),
        ("{\"workers\":2,\"workers\":9}", Field::Workers),
    ];
    for (text, field) in cases {
        look(&rt, text, Some(ConfigFault::Bad(field)));
    }
}

/// An object, and blanks up to this length.
fn padded(alloc: Global, length: usize) -> Result<String, AllocError> {
    let mut text = String::from_str(alloc, "{}")?;
    for _ in 2..length {
        text.push(' ')?;
    }
    Ok(text)
}

#[test]
fn a_text_has_at_most_65536_bytes(rt: HostRuntime) {
    for (length, fault) in [
        (65_536, None),
        (65_537, Some(ConfigFault::Bad(Field::Text))),
    ] {
        let text = padded(rt.alloc(), length).expect(&rt, "a text");
        look(&rt, text.as_str(), fault);
    }
}

/// An object with a field that is not known, whose value is this many arrays, one in the other.
fn nested(alloc: Global, depth: usize) -> Result<String, AllocError> {
    let mut text = String::from_str(alloc, "{\"pages\":")?;
    for _ in 0..depth {
        text.push('[')?;
    }
    for _ in 0..depth {
        text.push(']')?;
    }
    text.push('}')?;
    Ok(text)
}

#[test]
fn a_text_nests_at_most_127_deep(rt: HostRuntime) {
    for (depth, field) in [
        (126, Field::Unknown),
        (127, Field::Text),
        (30_000, Field::Text),
    ] {
        let text = nested(rt.alloc(), depth).expect(&rt, "a text");
        look(&rt, text.as_str(), Some(ConfigFault::Bad(field)));
    }
}

#[test]
fn bytes_that_are_no_utf8_are_no_text(rt: HostRuntime) {
    let fault = read_config_text(rt.alloc(), b"{\"policy\":\"\xff\"}").err();
    assert_eq!(rt; fault, Some(ConfigFault::Bad(Field::Text)));
}
