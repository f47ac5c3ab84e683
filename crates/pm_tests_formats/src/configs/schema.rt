//! The schema that an editor completes `config.json` from names the fields, limits and defaults of
//! the constants.

use pm_config::{
    BUFFER_PAGES_DEFAULT, BUFFER_PAGES_MAX, BUFFER_PAGES_PER_WORKER, CHECKPOINT_BYTES_DEFAULT,
    CHECKPOINT_BYTES_MAX, CHECKPOINT_BYTES_MIN, DIRTY_PERCENT_DEFAULT, DIRTY_PERCENT_MAX,
    FRAMES_DEFAULT, FRAMES_MAX, FRAMES_PER_WORKER, Kind, MAX_ROWS_DEFAULT, PAGE_SIZE_DEFAULT,
    PARTITIONS_DEFAULT, POLICY_DEFAULT, SEGMENT_BYTES_DEFAULT, WORKERS_DEFAULT, WORKERS_MAX,
    field_of_name, read_config_text,
};
use pm_types::{PARTITIONS_MAX, ROWS_MAX, SEGMENT_BYTES_MAX, SEGMENT_BYTES_MIN, is_page_size};
use serde_json::Value;
use std::process::Abort;

// The text of docs/config.schema.json, byte for byte: a test can't read that file.
const SCHEMA: &str = r#"{
  "$schema": "http://json-schema.org/draft-07/schema#",
  "title": "The configuration of a pagemem store",
  "description": "The file config.json of a store's folder. An absent or empty file is the object without fields. A field that is absent has its default, and of fields with one name the last counts.",
  "type": "object",
  "additionalProperties": false,
  "properties": {
    "page_size": {
      "title": "Page size, in bytes",
      "description": "Of the store's shape: the same at each opening.",
      "type": "integer",
      "enum": [1024, 2048, 4096, 8192, 16384],
      "default": 4096
    },
    "partitions": {
      "title": "Number of partitions",
      "description": "Of the store's shape: the same at each opening. Each partition has a file of its own.",
      "type": "integer",
      "minimum": 1,
      "maximum": 64,
      "default": 4
    },
    "max_rows": {
      "title": "Most rows of one partition, over all caches",
      "description": "Of the store's shape: the same at each opening.",
      "type": "integer",
      "minimum": 1,
      "maximum": 400000,
      "default": 400000
    },
    "segment_bytes": {
      "title": "Most bytes of one log segment",
      "description": "Of the store's shape: the same at each opening.",
      "type": "integer",
      "minimum": 65536,
      "maximum": 67108864,
      "default": 67108864
    },
    "workers": {
      "title": "Number of workers",
      "description": "Each worker is a thread and has every partition whose number modulo this one is its own.",
      "type": "integer",
      "minimum": 1,
      "maximum": 8,
      "default": 2
    },
    "frames": {
      "title": "Number of page frames",
      "description": "At least 64 for each worker.",
      "type": "integer",
      "minimum": 64,
      "maximum": 65536,
      "default": 4096
    },
    "buffer_pages": {
      "title": "Number of checkpoint buffer pages",
      "description": "At least 32 for each worker.",
      "type": "integer",
      "minimum": 32,
      "maximum": 65536,
      "default": 1024
    },
    "checkpoint_bytes": {
      "title": "Bytes of log after which a checkpoint begins",
      "type": "integer",
      "minimum": 65536,
      "maximum": 1099511627776,
      "default": 67108864
    },
    "dirty_percent": {
      "title": "Percent of dirty frames above which a checkpoint begins",
      "type": "integer",
      "minimum": 1,
      "maximum": 100,
      "default": 75
    },
    "policy": {
      "title": "How page frames are replaced",
      "type": "string",
      "enum": ["random-lru", "segmented-lru", "clock"],
      "default": "random-lru"
    }
  }
}
"#;

/// The schema.
fn schema(rt: &(impl Abort + AllocGlobal)) -> Value {
    Value::from_str(rt.alloc(), SCHEMA).expect(rt, "the schema")
}

/// The kind of replacement that has this name, as a configuration with the name says.
fn kind_of_name(rt: &(impl Abort + AllocGlobal), name: &str) -> Option<Kind> {
    let text = format!(in rt.alloc(); "{{\"policy\":\"{name}\"}}").expect(rt, "a text");
    match read_config_text(rt.alloc(), text.as_bytes()) {
        Ok(config) => Some(config.policy),
        Err(_) => None,
    }
}

/// A value of a field's schema.
fn part<'s>(schema: &'s Value, field: &str, word: &str) -> Option<&'s Value> {
    schema.get("properties")?.get(field)?.get(word)
}

/// The number under a word of a field's schema, as `minimum`.
fn number(schema: &Value, field: &str, word: &str) -> Option<u64> {
    part(schema, field, word).and_then(Value::as_u64)
}

/// Looks at the number under a word of a field's schema.
fn look(rt: &impl Abort, schema: &Value, field: &str, word: &str, wanted: u64) {
    assert_eq!(rt; number(schema, field, word), Some(wanted), "{field} {word}");
}

#[test]
fn the_schema_has_the_limits_and_the_defaults_of_the_numbers(rt: HostRuntime) {
    let schema = schema(&rt);
    let table = [
        (
            "partitions",
            1,
            PARTITIONS_MAX as u64,
            PARTITIONS_DEFAULT as u64,
        ),
        ("max_rows", 1, ROWS_MAX as u64, MAX_ROWS_DEFAULT as u64),
        (
            "segment_bytes",
            SEGMENT_BYTES_MIN as u64,
            SEGMENT_BYTES_MAX as u64,
            SEGMENT_BYTES_DEFAULT as u64,
        ),
        ("workers", 1, WORKERS_MAX as u64, WORKERS_DEFAULT as u64),
        (
            "frames",
            FRAMES_PER_WORKER as u64,
            FRAMES_MAX as u64,
            FRAMES_DEFAULT as u64,
        ),
        (
            "buffer_pages",
            BUFFER_PAGES_PER_WORKER as u64,
            BUFFER_PAGES_MAX as u64,
            BUFFER_PAGES_DEFAULT as u64,
        ),
        (
            "checkpoint_bytes",
            CHECKPOINT_BYTES_MIN,
            CHECKPOINT_BYTES_MAX,
            CHECKPOINT_BYTES_DEFAULT,
        ),
        (
            "dirty_percent",
            1,
            DIRTY_PERCENT_MAX as u64,
            DIRTY_PERCENT_DEFAULT as u64,
        ),
    ];
    for (field, least, most, default) in table {
        look(&rt, &schema, field, "minimum", least);
        look(&rt, &schema, field, "maximum", most);
        look(&rt, &schema, field, "default", default);
    }
}

/// The names in an object of the schema, each a field's, are this many.
fn has_field_names(schema: &Value, count: usize) -> bool {
    match schema.get("properties").and_then(Value::as_object) {
        Some(fields) => {
            fields.len() == count
                && fields
                    .keys()
                    .all(|name| field_of_name(name.as_str()).is_some())
        }
        None => false,
    }
}

#[test]
fn the_schema_has_the_ten_fields_and_no_other(rt: HostRuntime) {
    let schema = schema(&rt);
    assert!(rt; has_field_names(&schema, 10));
    assert_eq!(rt;
        schema.get("additionalProperties").and_then(Value::as_bool),
        Some(false)
    );
}

/// Whether the schema lists the five page sizes.
fn lists_page_sizes(schema: &Value) -> bool {
    let Some(Value::Array(sizes)) = part(schema, "page_size", "enum") else {
        return false;
    };
    for size in sizes {
        match size.as_u64() {
            Some(n) if n <= 16_384 && is_page_size(n as u32) => {}
            _ => return false,
        }
    }
    sizes.len() == 5
}

/// Whether the schema lists the names of the three kinds of replacement.
fn lists_policies(rt: &(impl Abort + AllocGlobal), schema: &Value) -> bool {
    let Some(Value::Array(names)) = part(schema, "policy", "enum") else {
        return false;
    };
    for name in names {
        match name.as_str() {
            Some(name) if kind_of_name(rt, name).is_some() => {}
            _ => return false,
        }
    }
    names.len() == 3
}

#[test]
fn the_schema_lists_the_page_sizes_and_the_policies(rt: HostRuntime) {
    let schema = schema(&rt);
    assert!(rt; lists_page_sizes(&schema));
    look(
        &rt,
        &schema,
        "page_size",
        "default",
        PAGE_SIZE_DEFAULT as u64,
    );
    assert!(rt; lists_policies(&rt, &schema));
    let policy = part(&schema, "policy", "default").and_then(Value::as_str);
    let policy = policy.expect(&rt, "a policy");
    assert_eq!(rt; kind_of_name(&rt, policy), Some(POLICY_DEFAULT));
}

/// Whether each field's schema has a title.
fn has_titles(schema: &Value) -> bool {
    let Some(Value::Object(fields)) = schema.get("properties") else {
        return false;
    };
    for (_, field) in fields {
        if field.get("title").is_none() {
            return false;
        }
    }
    true
}

#[test]
fn each_field_of_the_schema_has_a_title(rt: HostRuntime) {
    let schema = schema(&rt);
    assert!(rt; has_titles(&schema));
}
