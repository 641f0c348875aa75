//! Answers that are held until another unit has heard a service.

ghost use Rattle.std.specs.Prelude.{◌≤◌, length};

use flash_base::Bytes;

/// An answer of `unit` to service `sid` that waits until unit `watch` hears service `service`.
#[derive(Drop)]
pub(crate) struct Held {
    pub(crate) unit: u16,
    pub(crate) sid: u8,
    pub(crate) body: Bytes,
    /// The ticks between responses pending.
    pub(crate) every: u64,
    pub(crate) watch: u16,
    pub(crate) service: u8,
    /// The tick of the request.
    pub(crate) from: u64,
    /// How many responses pending were queued.
    pub(crate) pending: u64,
    ghost turns: { 1 ≤ every },
    ghost some: { 1 ≤ length body },
    ghost few: { length body ≤ 65535 },
}

/// A unit hears a service at a tick.
#[derive(Clone, Copy)]
pub(crate) struct Hearing {
    pub(crate) unit: u16,
    pub(crate) sid: u8,
    pub(crate) tick: u64,
}
