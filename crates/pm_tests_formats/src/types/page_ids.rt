//! Names of pages and of rows, by the bits that the format gives them.

use pm_types::{Link, PageId, packing_agrees};

#[test]
fn names_are_packed_as_the_format_says(rt: HostRuntime) {
    let rows = [
        (
            0,
            0,
            0,
            0x0001_0000_0000_0000,
            0x0001_0000_0000_0000,
            "0001000000000000",
        ),
        (
            2,
            5,
            3,
            0x0001_0002_0000_0005,
            0x0301_0002_0000_0005,
            "0001000200000005",
        ),
        (
            63,
            0xffff_ffff,
            253,
            0x0001_003f_ffff_ffff,
            0xfd01_003f_ffff_ffff,
            "0001003fffffffff",
        ),
    ];
    for (part, index, item, id, row, text) in rows {
        let page = PageId::new(part, index);
        let link = Link::new(page, item);
        assert_eq!(rt;
            (page, link),
            (PageId(id), Link(row)),
            "item {item} of {page}"
        );
        let parts = (page.part(), page.index(), link.page(), link.item());
        assert_eq!(rt; parts, (part, index, page, item), "item {item} of {page}");
        let printed = format!(in rt.alloc(); "{page}").expect(&rt, text);
        assert_eq!(rt; printed.as_str(), text);
    }
    let page = PageId::new(2, 5);
    let bytes = (page.0.to_le_bytes(), Link::new(page, 3).0.to_le_bytes());
    assert_eq!(rt; bytes, ([5, 0, 0, 0, 2, 0, 1, 0], [5, 0, 0, 0, 2, 0, 1, 3]));
    packing_agrees(2, 5, 3);
}
