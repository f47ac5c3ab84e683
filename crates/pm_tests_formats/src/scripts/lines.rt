//! What each line of a script says.

use pm_model::{Cmd, Line};
use pm_script::read_line;
use std::process::Abort;

// Whether the line has this command, with this cache, key and value; where it takes none of
// them, 0 or no bytes.
fn says(line: &Line, command: &str, at: u8, name: &[u8], text: &[u8]) -> bool {
    match line {
        Line::Good(Cmd::Put { cache, key, value }) => {
            command == "put" && *cache == at && key.bytes() == name && value.bytes() == text
        }
        Line::Good(Cmd::Get { cache, key }) => {
            command == "get" && *cache == at && key.bytes() == name
        }
        Line::Good(Cmd::Remove { cache, key }) => {
            command == "remove" && *cache == at && key.bytes() == name
        }
        Line::Good(Cmd::Scan { cache }) => command == "scan" && *cache == at,
        Line::Good(Cmd::Checkpoint) => command == "checkpoint",
        Line::Bad | Line::Long => false,
    }
}

#[test]
fn good_lines_say_what_their_words_say(rt: HostRuntime) {
    let rows: [(&[u8], &str, u8, &[u8], &[u8]); 15] = [
        (b"put 0 a 1", "put", 0, b"a", b"1"),
        (b"put 9 ! ~", "put", 9, b"!", b"~"),
        (b"put 10 x :", "put", 10, b"x", b":"),
        (b"put 15 X:61 xx:61", "put", 15, b"X:61", b"xx:61"),
        (b"put 0 x:00ff x:", "put", 0, b"\x00\xff", b""),
        (b"put 0 x:41 x:4A4b", "put", 0, b"A", b"JK"),
        (b"put 0 a x:783a", "put", 0, b"a", b"x:"),
        (b"get 15 k", "get", 15, b"k", b""),
        (b"get 1 get", "get", 1, b"get", b""),
        (b"get 1 x:20", "get", 1, b" ", b""),
        (b"remove 2 x:Ff0A", "remove", 2, b"\xff\n", b""),
        (b"scan 0", "scan", 0, b"", b""),
        (b"scan 15", "scan", 15, b"", b""),
        (b"checkpoint", "checkpoint", 0, b"", b""),
        (b"remove 0 remove", "remove", 0, b"remove", b""),
    ];
    for (bytes, command, cache, key, value) in rows {
        let line = read_line(rt.alloc(), bytes).expect(&rt, "a line");
        assert!(rt; says(&line, command, cache, key, value), "{bytes:?}");
    }
}

#[test]
fn every_other_line_is_bad(rt: HostRuntime) {
    let rows = [
        b"".as_slice(),
        b" ",
        b"get",
        b"get 0",
        b"get 0 ",
        b"get 0 a ",
        b"get 0 a b",
        b" get 0 a",
        b"get  0 a",
        b"get 0  a",
        b"get\t0 a",
        b"get 0 a\t",
        b"get 0 a\r",
        b"get 0 \x00",
        b"get 0 \x7f",
        b"get 0 \xc3\xa4",
        b"get 00 a",
        b"get 01 a",
        b"get 16 a",
        b"get 20 a",
        b"get 100 a",
        b"get -1 a",
        b"get +1 a",
        b"get a a",
        b"get 0 x:",
        b"get 0 x:4",
        b"get 0 x:4g",
        b"get 0 x:414",
        b"get 0 x:41 ",
        b"GET 0 a",
        b"gets 0 a",
        b"put 0 a",
        b"put 0 a ",
        b"put 0  1",
        b"put 0 a 1 ",
        b"put 0 a 1 2",
        b"put 0 x: 1",
        b"put 0 a x:3",
        b"put 0 a x:3\x00",
        b"put 16 a 1",
        b"get 0 a 1",
        b"remove 0",
        b"remove 0 a 1",
        b"scan",
        b"scan ",
        b"scan 16",
        b"scan 0 a",
        b"checkpoint ",
        b"checkpoint 0",
        b"checkpoin",
        b"get 0 a\nget 0 a",
    ];
    for bytes in rows {
        let line = read_line(rt.alloc(), bytes).expect(&rt, "a line");
        assert!(rt; matches!(line, Line::Bad), "{bytes:?}");
    }
}

/// What a line may be.
const GOOD: &str = "good";

const BAD: &str = "bad";

const LONG: &str = "long";

/// Which of them a line is.
fn kind_of(line: &Line) -> &'static str {
    match line {
        Line::Good(_) => GOOD,
        Line::Bad => BAD,
        Line::Long => LONG,
    }
}

/// A piece of a line: these bytes, and this one so often.
type Filled = (&'static [u8], u8, usize);

/// Looks at what the line of these pieces is.
fn look(rt: &(impl Abort + AllocGlobal), pieces: &[Filled], wanted: &str) {
    let mut bytes = Vec::new(rt.alloc());
    for (front, byte, count) in pieces {
        bytes.extend_from_slice(front).expect(rt, "a line");
        for _ in 0..*count {
            bytes.push(*byte).expect(rt, "a line");
        }
    }
    let line = read_line(rt.alloc(), &bytes).expect(rt, "a line");
    assert_eq!(rt; kind_of(&line), wanted, "{pieces:?}");
}

#[test]
fn lengths_end_at_64_at_900_and_at_4096(rt: HostRuntime) {
    let puts = [
        (64, 900, GOOD),
        (65, 900, BAD),
        (64, 901, BAD),
        (1, 0, GOOD),
        (0, 0, BAD),
    ];
    for (key_len, value_len, kind) in puts {
        let key: Filled = (b"put 15 x:", b'6', 2 * key_len);
        look(&rt, &[key, (b" x:", b'7', 2 * value_len)], kind);
    }
    let puts = [(64, 900, GOOD), (65, 900, BAD), (64, 901, BAD)];
    for (key_len, value_len, kind) in puts {
        let key: Filled = (b"put 15 ", b'k', key_len);
        look(&rt, &[key, (b" ", b'v', value_len)], kind);
    }
    look(&rt, &[(b"put 0 a 1", b'1', 4_087)], BAD);
    look(&rt, &[(b"put 0 a 1", b'1', 4_088)], LONG);
}
