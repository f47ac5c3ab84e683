//! The names of a store's files.

use pm_disk::{MarkFile, StoreFile, file_named, segment_name, segment_number};

#[test]
fn a_segment_and_its_name_belong_together(rt: HostRuntime) {
    for (seg, name) in [
        (1, b"wal-0000000000000001.seg"),
        (10, b"wal-000000000000000a.seg"),
        (0x1234_5678_9ABC_DEF0, b"wal-123456789abcdef0.seg"),
        (u64::MAX, b"wal-ffffffffffffffff.seg"),
    ] {
        assert_eq!(rt; segment_name(seg).as_slice(), name.as_slice());
        assert_eq!(rt; segment_number(name), Some(seg));
    }
    for name in [
        b"wal-0000000000000000.seg",
        b"wal-000000000000000A.seg",
        b"wal-00000000000000:1.seg",
        b"wal-0000000000000001.sog",
        b"wal_0000000000000001.seg",
    ] {
        assert_eq!(rt; segment_number(name), None, "{name:?}");
    }
    assert_eq!(rt; segment_number(b"wal-1.seg"), None);
}

#[test]
fn a_name_tells_its_file(rt: HostRuntime) {
    for (name, file) in [
        (b"config.json".as_slice(), Some(StoreFile::Config)),
        (b"cp.start", Some(StoreFile::Marks(MarkFile::Start))),
        (b"cp.end", Some(StoreFile::Marks(MarkFile::End))),
        (b"wal-00000000000000ff.seg", Some(StoreFile::Segment(255))),
        (b"part-000.pages", Some(StoreFile::Pages(0))),
        (b"part-063.pages", Some(StoreFile::Pages(63))),
        (b"part-064.pages", None),
        (b"part-63.pages", None),
        (b"config.jso", None),
        (b"cp.start ", None),
        (b"", None),
    ] {
        assert_eq!(rt; file_named(name), file, "{name:?}");
    }
}
