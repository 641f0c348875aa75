use crate::bytes::Bytes;

/// How many bytes the size and the address of a memory range take in a request.
///
/// It is the address and length format identifier of ISO 14229-1 (services 0x34 and 0x31):
/// `size` is its high digit and `at` its low digit.
#[derive(Clone, Copy, Debug, PartialEq, Eq)]
pub struct Width {
    pub size: u8,
    pub at: u8,
}

/// How a unit's key is made from its seed (SecurityAccess, ISO 14229-1, service 0x27).
///
/// The standard leaves the rule to the manufacturer; these rules are this project's own.
#[derive(Debug, Drop)]
pub enum KeyRule {
    /// The unit is never locked.
    Free,
    /// Byte `i` of the key is byte `i` of the seed xor byte `i` modulo the mask's length of the mask.
    Xor {
        level: u8,
        mask: Bytes,
    },
    /// The first `length` bytes of the SHA-256 of the secret followed by the seed.
    Digest {
        level: u8,
        length: u8,
        secret: Bytes,
    },
}
