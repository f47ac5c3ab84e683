//! What a text says of each field.

use pm_config::{
    Config, ConfigFault, Kind, field_name, field_of_name, first_difference, read_config_text,
};
use pm_types::{Field, Shape};
use std::process::Abort;

const DEFAULT: Config = Config {
    shape: Shape {
        page_size: 4_096,
        partitions: 4,
        version: 1,
        max_rows: 400_000,
        segment_bytes: 67_108_864,
    },
    workers: 2,
    frames: 4_096,
    buffer_pages: 1_024,
    checkpoint_bytes: 67_108_864,
    dirty_percent: 75,
    policy: Kind::Random,
};

/// The number that a configuration has in this field.
fn number(config: &Config, field: Field) -> Option<u64> {
    match field {
        Field::PageSize => Some(config.shape.page_size as u64),
        Field::Partitions => Some(config.shape.partitions as u64),
        Field::MaxRows => Some(config.shape.max_rows as u64),
        Field::SegmentBytes => Some(config.shape.segment_bytes as u64),
        Field::Workers => Some(config.workers as u64),
        Field::Frames => Some(config.frames as u64),
        Field::BufferPages => Some(config.buffer_pages as u64),
        Field::CheckpointBytes => Some(config.checkpoint_bytes),
        Field::DirtyPercent => Some(config.dirty_percent as u64),
        _ => None,
    }
}

/// The text with this number in this field.
fn text_of(rt: &(impl Abort + AllocGlobal), field: Field, n: u64) -> String {
    let name = field_name(field);
    format!(in rt.alloc(); "{{\"{name}\":{n}}}").expect(rt, "a text")
}

/// Looks that the field may have this number, and then has it.
fn may_be(rt: &(impl Abort + AllocGlobal), field: Field, n: u64) {
    let config = said(rt, text_of(rt, field, n).as_str());
    assert_eq!(rt; number(&config, field), Some(n), "{field:?}");
}

/// Looks that the field may not have this number, by its own name.
fn may_not_be(rt: &(impl Abort + AllocGlobal), field: Field, n: u64) {
    let answer = read_config_text(rt.alloc(), text_of(rt, field, n).as_bytes());
    assert_eq!(rt; answer, Err(ConfigFault::Bad(field)), "{n}");
}

#[test]
fn each_number_is_read_within_its_limits_and_refused_past_both(rt: HostRuntime) {
    // With two workers, as no text here says how many there are but its own.
    let table = [
        (Field::Partitions, 1, 64),
        (Field::MaxRows, 1, 400_000),
        (Field::SegmentBytes, 65_536, 67_108_864),
        (Field::Workers, 1, 8),
        (Field::Frames, 128, 65_536),
        (Field::BufferPages, 64, 65_536),
        (Field::CheckpointBytes, 65_536, 1_099_511_627_776u64),
        (Field::DirtyPercent, 1, 100),
    ];
    for (field, least, most) in table {
        may_be(&rt, field, least);
        may_be(&rt, field, most);
        may_not_be(&rt, field, least.saturating_sub(1));
        may_not_be(&rt, field, most.saturating_add(1));
    }
}

#[test]
fn a_page_has_one_of_five_sizes(rt: HostRuntime) {
    for size in [1_024, 2_048, 4_096, 8_192, 16_384] {
        may_be(&rt, Field::PageSize, size);
        may_not_be(&rt, Field::PageSize, size.saturating_add(1));
    }
    for size in [0, 512, 1_023, 3_072, 32_768] {
        may_not_be(&rt, Field::PageSize, size);
    }
}

/// What a text says.
fn said(rt: &(impl Abort + AllocGlobal), text: &str) -> Config {
    read_config_text(rt.alloc(), text.as_bytes()).expect(rt, text)
}

/// Looks at what a text says.
fn look(rt: &(impl Abort + AllocGlobal), text: &str, wanted: &Config) {
    assert_eq!(rt; said(rt, text), *wanted, "{text}");
}

#[test]
fn absent_fields_have_their_defaults(rt: HostRuntime) {
    for text in ["", "{}", " {\n} "] {
        look(&rt, text, &DEFAULT);
    }
    let wanted = Config {
        policy: Kind::Clock,
        ..DEFAULT
    };
    look(&rt, "{\"policy\":\"clock\"}", &wanted);
}

#[test]
fn the_last_of_equal_names_counts(rt: HostRuntime) {
    let wanted = Config {
        workers: 3,
        policy: Kind::Segmented,
        ..DEFAULT
    };
    let texts = [
        "{\"workers\":9,\"workers\":3,\"policy\":\"segmented-lru\"}",
        "{\"policy\":[],\"workers\":null,\"policy\":\"segmented-lru\",\"workers\":3}",
        "{\"workers\":8,\"w\\u006frkers\":3,\"policy\":\"clock\",\"policy\":\"segmented-lru\"}",
    ];
    for text in texts {
        look(&rt, text, &wanted);
    }
}

#[test]
fn frames_and_buffer_pages_suffice_for_the_workers(rt: HostRuntime) {
    let least = "{\"workers\":8,\"frames\":512,\"buffer_pages\":256}";
    let wanted = Config {
        workers: 8,
        frames: 512,
        buffer_pages: 256,
        ..DEFAULT
    };
    look(&rt, least, &wanted);
}

#[test]
fn the_first_field_that_differs_is_named(rt: HostRuntime) {
    let wanted = Shape {
        partitions: 8,
        max_rows: 7,
        ..DEFAULT.shape
    };
    let first = first_difference(&DEFAULT.shape, &wanted);
    let none = first_difference(&wanted, &wanted);
    assert_eq!(rt; (first, none), (Some(Field::Partitions), None));
    let fields = (field_of_name("max_rows"), field_of_name("unknown"));
    assert_eq!(rt; fields, (Some(Field::MaxRows), None));
}
