//! Places in the log: their text and their order.

use pm_types::Place;

#[test]
fn places_are_printed_and_ordered_by_segment_first(rt: HostRuntime) {
    let first = Place { seg: 1, off: 37 };
    let last = Place { seg: 2, off: 0 };
    assert_eq!(rt;
        format!(in rt.alloc(); "{first}")
            .expect(&rt, "a text")
            .as_str(),
        "1:37"
    );
    assert_eq!(rt;
        format!(in rt.alloc(); "{last}")
            .expect(&rt, "a text")
            .as_str(),
        "2:0"
    );
    assert!(rt; first < last && first < Place { seg: 1, off: 38 });
}
