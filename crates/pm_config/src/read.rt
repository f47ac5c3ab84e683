//! The reading of a configuration.

ghost use Rattle.std.specs.Prelude.{◌≡◌, ◌≢◌, ◌<◌, ◌≤◌, length, Err, IfOk, IfErr};
ghost use Rattle.serde_json.specs.Find.{as_object};
ghost use Rattle.serde_json.specs.View.{view};
ghost use Rattle.pm_types.specs.Shapes.{IsShape};
ghost use Rattle.pm_config.specs.declared.limits.TheConstants.{CONFIG_BYTES_MAX};
ghost use Rattle.pm_config.specs.Configs.{config_of, config_by, shape_of, run_of};
ghost use Rattle.pm_config.specs.Limits.{IsConfig};
ghost use Rattle.pm_config.specs.Stored.{config_stored, values_in};

use crate::config::Config;
use crate::fault::ConfigFault;
use crate::limits::{
    BUFFER_PAGES_DEFAULT, BUFFER_PAGES_MAX, BUFFER_PAGES_PER_WORKER, CHECKPOINT_BYTES_DEFAULT,
    CHECKPOINT_BYTES_MAX, CHECKPOINT_BYTES_MIN, DIRTY_PERCENT_DEFAULT, DIRTY_PERCENT_MAX,
    FRAMES_DEFAULT, FRAMES_MAX, FRAMES_PER_WORKER, MAX_ROWS_DEFAULT, PARTITIONS_DEFAULT,
    SEGMENT_BYTES_DEFAULT, WORKERS_DEFAULT, WORKERS_MAX,
};
use crate::number::{number_in, page_size_in};
use crate::object::{has_known_names, read_value};
use crate::policy::policy_in;
use pm_types::{
    Field, LAST_VERSION, PARTITIONS_MAX, ROWS_MAX, SEGMENT_BYTES_MAX, SEGMENT_BYTES_MIN, Shape,
};
use serde_json::Value;
use std::alloc::Global;

/// What the bytes of `config.json` say. No bytes at all are the object without fields; a field that is
/// absent has its default, and of fields with one name the last counts.
///
/// `Bad` names the first test that refuses the bytes, in this order: `Text` where there are more than
/// `CONFIG_BYTES_MAX` bytes, where they aren't JSON, or where they aren't an object; `Unknown` where the
/// object has a field that isn't known; then the fields in the order of `Field`, where a value isn't of
/// its kind or isn't within its limits. `Memory` means that memory ran out, and says nothing of the bytes.
pub fn read_config_text(alloc: Global, bytes: &[u8]) -> Result<Config, ConfigFault>
    ensures value { result ≢ Err ConfigFault.Memory → result ≡ config_of bytes.now }
    ensures within_limits { IfOk result IsConfig }
    ensures memory { result ≡ Err ConfigFault.Memory
        → (0 < length bytes.now) × (length bytes.now ≤ CONFIG_BYTES_MAX) }
{
    let value = read_value(alloc, bytes)?;
    config_of_value(&value)
}

/// What a text's value says.
fn config_of_value(value: &Value) -> Result<Config, ConfigFault>
    ensures value { result ≡ config_stored (as_object (view value.now)) (view value.now) }
    ensures within_limits { IfOk result IsConfig }
    ensures answered { IfErr result (λ fault. fault ≢ ConfigFault.Memory) }
{
    let Some(object) = value.as_object() else {
        return Err(ConfigFault::Bad(Field::Text));
    };
    if !has_known_names(object) {
        return Err(ConfigFault::Bad(Field::Unknown));
    }
    config_in(value)
}

/// What the fields of the object say.
fn config_in(object: &Value) -> Result<Config, ConfigFault>
    ensures value { result ≡ config_by (values_in (view object.now)) }
    ensures within_limits { IfOk result IsConfig }
    ensures answered { IfErr result (λ fault. fault ≢ ConfigFault.Memory) }
{
    let shape = shape_in(object)?;
    run_in(shape, object)
}

/// What the fields of the store's shape say.
fn shape_in(object: &Value) -> Result<Shape, ConfigFault>
    ensures value { result ≡ shape_of (values_in (view object.now)) }
    ensures within_limits { IfOk result IsShape }
    ensures answered { IfErr result (λ fault. fault ≢ ConfigFault.Memory) }
{
    let page_size = page_size_in(object)?;
    let partitions = number_in(
        object,
        Field::Partitions,
        1,
        PARTITIONS_MAX as u64,
        PARTITIONS_DEFAULT as u64,
    )?;
    let max_rows = number_in(
        object,
        Field::MaxRows,
        1,
        ROWS_MAX as u64,
        MAX_ROWS_DEFAULT as u64,
    )?;
    let segment_bytes = number_in(
        object,
        Field::SegmentBytes,
        SEGMENT_BYTES_MIN as u64,
        SEGMENT_BYTES_MAX as u64,
        SEGMENT_BYTES_DEFAULT as u64,
    )?;
    Ok(Shape {
        page_size,
        partitions: partitions as u16,
        version: LAST_VERSION,
        max_rows: max_rows as u32,
        segment_bytes: segment_bytes as u32,
    })
}

/// What the other fields say, beside this shape.
fn run_in(shape: Shape, object: &Value) -> Result<Config, ConfigFault>
    requires { IsShape shape }
    ensures value { result ≡ run_of shape (values_in (view object.now)) }
    ensures within_limits { IfOk result IsConfig }
    ensures answered { IfErr result (λ fault. fault ≢ ConfigFault.Memory) }
{
    let workers = number_in(
        object,
        Field::Workers,
        1,
        WORKERS_MAX as u64,
        WORKERS_DEFAULT as u64,
    )?;
    let frames = number_in(
        object,
        Field::Frames,
        FRAMES_PER_WORKER as u64 * workers,
        FRAMES_MAX as u64,
        FRAMES_DEFAULT as u64,
    )?;
    let buffer_pages = number_in(
        object,
        Field::BufferPages,
        BUFFER_PAGES_PER_WORKER as u64 * workers,
        BUFFER_PAGES_MAX as u64,
        BUFFER_PAGES_DEFAULT as u64,
    )?;
    let checkpoint_bytes = number_in(
        object,
        Field::CheckpointBytes,
        CHECKPOINT_BYTES_MIN,
        CHECKPOINT_BYTES_MAX,
        CHECKPOINT_BYTES_DEFAULT,
    )?;
    let dirty_percent = number_in(
        object,
        Field::DirtyPercent,
        1,
        DIRTY_PERCENT_MAX as u64,
        DIRTY_PERCENT_DEFAULT as u64,
    )?;
    let policy = policy_in(object)?;
    Ok(Config {
        shape,
        workers: workers as u32,
        frames: frames as u32,
        buffer_pages: buffer_pages as u32,
        checkpoint_bytes,
        dirty_percent: dirty_percent as u32,
        policy,
    })
}
