/// A call of a device failed. What it left is said where the call is.
#[derive(Debug, Drop)]
pub struct DeviceFault;

/// Which of the images that a crash may leave is wanted.
#[derive(Clone, Copy, Debug, PartialEq, Eq)]
pub enum Pick {
    /// The bytes as they were at the last sync that succeeded.
    Old,
    /// The bytes that a read gives.
    New,
    /// This byte in every range written since the last sync, at the length that a read gives.
    Junk(u8),
}
