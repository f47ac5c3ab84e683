//! The lines that are drawn from a number.

use pm_model::{Cmd, Line};
use pm_tools::Gen;
use std::test::Fail;

// Whether the line changes or asks for this key of this cache, and sets it to this value.
fn says(line: &Line, number: u8, name: &[u8], text: Option<&[u8]>) -> bool {
    match line {
        Line::Good(Cmd::Put { cache, key, value }) => {
            *cache == number && key.bytes() == name && text == Some(value.bytes())
        }
        Line::Good(Cmd::Get { cache, key }) => {
            *cache == number && key.bytes() == name && text.is_none()
        }
        _ => false,
    }
}

#[test]
fn the_lines_of_a_number_are_always_the_same(rt: HostRuntime) -> Result<(), Fail> {
    let mut drawn = Gen::new(0);
    let wanted = [
        (0, b"k988".as_slice(), Some(b"v1".as_slice())),
        (2, b"k927", None),
        (1, b"k122", Some(b"v3")),
    ];
    for (i, (cache, key, value)) in wanted.into_iter().enumerate() {
        let line = drawn.line(rt.alloc(), i as u32 + 1)?;
        assert!(rt; says(&line, cache, key, value), "{line:?}");
    }
    Ok(())
}
