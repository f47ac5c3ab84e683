//! Scripts over a map in memory, line by line, with the texts of their replies.

ghost use Rattle.pm_model.specs.Partitions.{ArePartitions};

use pm_model::PlainMap;
use pm_script::{print_reply, read_line};
use pm_types::Shape;
use std::process::Abort;

const SHAPE: Shape = Shape {
    page_size: 4_096,
    partitions: 4,
    version: 1,
    max_rows: 400_000,
    segment_bytes: 67_108_864,
};

// Two rows in the one partition.
const SMALL: Shape = Shape {
    page_size: 4_096,
    partitions: 1,
    version: 1,
    max_rows: 2,
    segment_bytes: 65_536,
};

/// Looks that the lines of a script are answered so.
fn look(rt: &(impl Abort + AllocGlobal), shape: Shape, script: &[&[u8]], text: &[u8])
    requires { ArePartitions shape.partitions }
{
    let mut map = PlainMap::new(rt.alloc());
    let mut out = Vec::new(rt.alloc());
    for line in script {
        let line = read_line(rt.alloc(), line).expect(rt, "a line");
        let answer = map.answer(rt.alloc(), shape, line).expect(rt, "an answer");
        print_reply(&answer.reply, &mut out).expect(rt, "a reply");
    }
    assert_eq!(rt; out.as_slice(), text);
}

#[test]
fn scripts_are_answered_as_a_map_answers_them(rt: HostRuntime) {
    let rows: [(&[&[u8]], &[u8]); 8] = [
        (&[b"get 0 a", b"remove 0 a"], b"none\nfalse\n"),
        (
            &[b"put 0 a 1", b"put 0 a 1", b"remove 0 a", b"remove 0 a"],
            b"ok\nok\ntrue\nfalse\n",
        ),
        (
            &[b"put 0 x:00ff x:", b"scan 0", b"scan 2"],
            b"ok\npair x:00ff x:\nend 1\nend 0\n",
        ),
        (
            &[
                b"",
                b"get 00 a",
                b"get 16 a",
                b"get  0 a",
                b"get 0 x:4",
                b"put 0 x: 1",
            ],
            b"error line\nerror line\nerror line\nerror line\nerror line\nerror line\n",
        ),
        (
            &[
                b"put 0 x:41 x:4A4b",
                b"get 0 A",
                b"put 0 a x:783a",
                b"get 0 a",
            ],
            b"ok\nvalue JK\nok\nvalue x:783a\n",
        ),
        (
            &[
                b"put 0 b 2",
                b"put 0 a 1",
                b"put 1 c 3",
                b"scan 0",
                b"checkpoint",
            ],
            b"ok\nok\nok\npair a 1\npair b 2\nend 2\nok\n",
        ),
        (
            &[b"put 2 x:ff 3", b"put 2 ~ 2", b"put 2 ~~ 1", b"scan 2"],
            b"ok\nok\nok\npair ~ 2\npair ~~ 1\npair x:ff 3\nend 3\n",
        ),
        (
            &[b"put 0 a\x00 1", b"put 0 a 1\r", b"get 0 \xff", b"scan 0"],
            b"error line\nerror line\nerror line\nend 0\n",
        ),
    ];
    for (script, text) in rows {
        look(&rt, SHAPE, script, text);
    }
    let script: [&[u8]; 6] = [
        b"put 0 a 1",
        b"put 1 a 1",
        b"put 0 b 1",
        b"put 0 a 2",
        b"remove 1 a",
        b"put 0 b 1",
    ];
    let text = b"ok\nok\nerror full\nok\ntrue\nok\n";
    look(&rt, SMALL, &script, text);
}
