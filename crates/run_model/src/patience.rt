/// The quiet ticks after which an answer is awaited no more: that of a unit to its request, since this was sent or since
/// its last response pending, and that of the gateway to a routing activation.
pub const PATIENCE: u64 = 1000;
