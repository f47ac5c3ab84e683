//! The bytes of shapes.

ghost use Rattle.std.specs.Prelude.{◌≡◌};
ghost use Rattle.pm_records.specs.Shapes.{shape_bytes};

use crate::limits::SHAPE_LEN;
use pm_types::Shape;

/// The shape that these bytes say, be it within its limits or not.
pub fn shape_of(bytes: &[u8; SHAPE_LEN]) -> Shape
    ensures { bytes.now ≡ shape_bytes result }
{
    Shape {
        page_size: u32::from_le_bytes([bytes[0], bytes[1], bytes[2], bytes[3]]),
        partitions: u16::from_le_bytes([bytes[4], bytes[5]]),
        version: u16::from_le_bytes([bytes[6], bytes[7]]),
        max_rows: u32::from_le_bytes([bytes[8], bytes[9], bytes[10], bytes[11]]),
        segment_bytes: u32::from_le_bytes([bytes[12], bytes[13], bytes[14], bytes[15]]),
    }
}

/// The bytes that say the shape.
#[tactic(auto, unfolding(crate::specs::Shapes::shape_bytes))]
pub fn shape_bytes(shape: &Shape) -> [u8; SHAPE_LEN]
    ensures { result ≡ shape_bytes shape.now }
{
    let mut bytes = [0; SHAPE_LEN];
    bytes[0..4].copy_from_slice(&shape.page_size.to_le_bytes());
    bytes[4..6].copy_from_slice(&shape.partitions.to_le_bytes());
    bytes[6..8].copy_from_slice(&shape.version.to_le_bytes());
    bytes[8..12].copy_from_slice(&shape.max_rows.to_le_bytes());
    bytes[12..16].copy_from_slice(&shape.segment_bytes.to_le_bytes());
    bytes
}
