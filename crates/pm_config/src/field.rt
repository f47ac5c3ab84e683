//! The names of the fields.

ghost use Rattle.std.specs.Prelude.{◌≡◌};
ghost use Rattle.pm_config.specs.Names.{name_of, field_of};

use pm_types::Field;

/// The name by which a refused part of the configuration is printed: a field's own, `text` or `unknown`.
pub fn field_name(field: Field) -> &'static str
    ensures { result.now ≡ name_of field }
{
    match field {
        Field::Text => "text",
        Field::Unknown => "unknown",
        Field::PageSize => "page_size",
        Field::Partitions => "partitions",
        Field::MaxRows => "max_rows",
        Field::SegmentBytes => "segment_bytes",
        Field::Workers => "workers",
        Field::Frames => "frames",
        Field::BufferPages => "buffer_pages",
        Field::CheckpointBytes => "checkpoint_bytes",
        Field::DirtyPercent => "dirty_percent",
        Field::Policy => "policy",
    }
}

/// The field of a configuration that has this name. `None` exactly when there is no such field.
pub fn field_of_name(name: &str) -> Option<Field>
    ensures { result ≡ field_of name.now }
{
    match name {
        "page_size" => Some(Field::PageSize),
        "partitions" => Some(Field::Partitions),
        "max_rows" => Some(Field::MaxRows),
        "segment_bytes" => Some(Field::SegmentBytes),
        "workers" => Some(Field::Workers),
        "frames" => Some(Field::Frames),
        "buffer_pages" => Some(Field::BufferPages),
        "checkpoint_bytes" => Some(Field::CheckpointBytes),
        "dirty_percent" => Some(Field::DirtyPercent),
        "policy" => Some(Field::Policy),
        _ => None,
    }
}
