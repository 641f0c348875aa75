//! Replies of units that are to be queued.

ghost use Rattle.std.specs.Prelude.{◌≤◌, length};

use flash_base::Bytes;

/// A reply of a unit that is due at a tick.
#[derive(Drop)]
pub(crate) struct Outgoing {
    pub(crate) unit: u16,
    pub(crate) due: u64,
    pub(crate) body: Bytes,
    ghost some: { 1 ≤ length body },
    ghost few: { length body ≤ 65535 },
}
