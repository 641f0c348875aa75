//! What is queued until it is due.

ghost use Rattle.std.specs.Prelude.{◌≡◌, ◌≤◌, drop, length, IfOk, not, nat_le};
ghost use Rattle.unit_model.specs.Poll.{bytes_due, not_due};

use flash_base::{Bytes, NoMemory};
use std::alloc::Global;

/// The bytes of the frames that are due at a tick, in queued order.
pub(crate) fn due_bytes(
    alloc: Global,
    later: &[(u64, Bytes)],
    tick: u64,
) -> Result<Vec<u8>, NoMemory>
    ensures { IfOk result (λ made. made.items ≡ bytes_due tick later.now) }
{
    let mut made = Vec::new(alloc);
    for one in later {
        if one.0 <= tick {
            made.extend_from_slice(one.1.as_slice())?;
        }
    }
    Ok(made)
}

fn is_later(one: &(u64, Bytes), tick: u64) -> bool
    ensures { result ≡ not (nat_le one.now.0 tick) }
{
    one.0 > tick
}

/// Drops the frames that are due.
pub(crate) fn keep_later(later: &mut Vec<(u64, Bytes)>, tick: u64)
    ensures { later.new.items ≡ not_due tick later.old.items }
{
    later.retain(|q| is_later(q, tick));
}

/// The bytes before `end` were carried: where these are all, there is room for new ones.
pub(crate) fn past(ready: &mut Vec<u8>, end: usize) -> usize
    requires { end ≤ length ready.old.items }
    ensures is { drop result ready.new.items ≡ drop end ready.old.items }
    ensures within { result ≤ length ready.new.items }
{
    if end < ready.len() {
        return end;
    }
    ready.clear();
    0
}
