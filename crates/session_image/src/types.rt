use ecu_mem::Ident;
use flash_base::{Bytes, Items, NoMemory, Text};
use flash_plan::Segment;
use rec_text::RecFault;

/// What a session gives: the segments to be programmed, in order, at their target addresses.
#[derive(Debug, Drop)]
pub struct Image {
    /// Each with its bytes and its target address; no two share an address.
    pub segments: Items<Segment>,
    /// One for each checksum of the session, in order.
    pub checks: Items<Checked>,
    /// The own idents of all its datablocks, in order.
    pub own: Items<Ident>,
}

/// A checksum that did not differ.
#[derive(Debug, Drop)]
pub struct Checked {
    /// The SHORT-NAME.
    pub name: Text,
    /// It was computed; false where its algorithm is another than `SHA-256` and `SUM-16`.
    pub done: bool,
}

/// Why a session gives no image. Segments are numbered through the session from 0.
#[derive(Debug, Drop)]
pub enum ImageFault {
    /// The flash data with this ID are compressed or encrypted.
    Compressed { flash: Text },
    /// The flash data with this ID are in a format of the user's own.
    UserDefined { flash: Text },
    /// The flash data with this ID stand in the catalogue, and are not hexadecimal.
    BadText { flash: Text },
    /// The text of the flash data with this ID is refused.
    Lines { flash: Text, fault: RecFault },
    /// The datablock with this ID has no segment; with an empty ID, the session has no datablock.
    NoSegment { block: Text },
    /// The session has more than 16,777,216 bytes, or a checksum reads more.
    TooLarge,
    /// The segments of the datablock with this ID have `said` bytes, and its data `seen`.
    BinarySize { block: Text, said: u64, seen: u64 },
    /// The segment has no byte at this source address, and the task no fill byte.
    Hole { segment: u32, at: u64 },
    /// The segment leaves the range from 0 to 2^40.
    OutOfRange { segment: u32 },
    /// Two segments have this target address, and none a lower one.
    Overlap { at: u64 },
    /// The checksum says another value than it has.
    ChecksumDiffers { name: Text, said: Bytes, got: Bytes },
    NoMemory,
}

impl From<NoMemory> for ImageFault {
    ghost use Rattle.std.specs.Prelude.{◌≡◌};
    ghost use Rattle.session_image.specs.declared.types.ImageFault.{ImageFault};

    ghost from_gives = { λ _ e. e ≡ ImageFault.NoMemory };

    fn from(_e: NoMemory) -> ImageFault {
        ImageFault::NoMemory
    }
}
