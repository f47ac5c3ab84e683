//! What stands in a frame before its payload.

ghost use Rattle.std.specs.Prelude.{◌≡◌, ◌↔◌, IsTrue};
ghost use Rattle.pm_frame.specs.Frames.{head_bytes, IsHead};

use crate::kinds::{LOGICAL, SEAL};
use crate::limits::{FRAME_END_MAX, FRAME_EXTRA, HEAD_LEN, PAYLOAD_MAX, SEGMENT_END_MAX};
use pm_types::Place;

/// What a frame says before its payload.
#[derive(Clone, Copy)]
pub(crate) struct Head {
    pub(crate) kind: u8,
    pub(crate) place: Place,
    pub(crate) payload_len: u32,
}

impl Head {
    /// What these bytes say, be it a frame's head or not.
    pub(crate) fn of(bytes: &[u8; HEAD_LEN]) -> Head
        ensures { bytes.now ≡ head_bytes result.kind result.place result.payload_len }
    {
        Head {
            kind: bytes[0],
            place: Place {
                seg: u64::from_le_bytes([
                    bytes[1], bytes[2], bytes[3], bytes[4], bytes[5], bytes[6], bytes[7], bytes[8],
                ]),
                off: u32::from_le_bytes([bytes[9], bytes[10], bytes[11], bytes[12]]),
            },
            payload_len: u32::from_le_bytes([bytes[13], bytes[14], bytes[15], bytes[16]]),
        }
    }

    /// The bytes that say this.
    #[tactic(auto, unfolding(crate::specs::Frames::head_bytes))]
    pub(crate) fn bytes(&self) -> [u8; HEAD_LEN]
        ensures { result ≡ head_bytes self.now.kind self.now.place self.now.payload_len }
    {
        let mut bytes = [0; HEAD_LEN];
        bytes[0] = self.kind;
        bytes[1..9].copy_from_slice(&self.place.seg.to_le_bytes());
        bytes[9..13].copy_from_slice(&self.place.off.to_le_bytes());
        bytes[13..17].copy_from_slice(&self.payload_len.to_le_bytes());
        bytes
    }

    /// Whether a frame of this place may begin so.
    pub(crate) fn is_of(&self, place: Place) -> bool
        ensures { IsTrue result
            ↔ ((self.now.place ≡ place) × IsHead place self.now.kind self.now.payload_len) }
    {
        let end_max = if self.kind == SEAL {
            SEGMENT_END_MAX
        } else {
            FRAME_END_MAX
        };
        let payload_len = self.payload_len as usize;
        self.place == place
            && (LOGICAL..=SEAL).contains(&self.kind)
            && payload_len <= PAYLOAD_MAX
            && place.off as usize + payload_len + FRAME_EXTRA <= end_max as usize
    }
}
