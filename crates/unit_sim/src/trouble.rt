//! Which trouble acts on a request, and which remain behind it.

ghost use Rattle.std.specs.Prelude.{◌≡◌, IfOk, option_map};
ghost use Rattle.unit_sim.specs.Acting.{acting, lowered, counted};

use flash_base::{Bytes, NoMemory};
use std::alloc::Global;
use unit_model::{Act, TroubleSpec};

/// The first of the list that stands for a request with this service byte.
pub(crate) fn acting(troubles: &[TroubleSpec], sid: u8) -> Option<&Act>
    ensures { option_map (λ a. a.now) result ≡ acting sid troubles.now }
{
    for trouble in troubles {
        if trouble.sid == sid && trouble.nth == 1 {
            return Some(&trouble.act);
        }
    }
    None
}

/// One request more with this service byte was heard; what is over has the number 0.
fn lower(trouble: &mut TroubleSpec, sid: u8)
    ensures { trouble.new ≡ lowered sid trouble.old }
{
    if trouble.sid != sid {
        return;
    }
    if trouble.nth > 1 {
        trouble.nth -= 1;
        return;
    }
    if let Act::Busy { times } = &mut trouble.act {
        if *times > 1 {
            *times -= 1;
            return;
        }
    }
    trouble.nth = 0;
}

/// Each of the list counts a request with this service byte, whichever acted; what is over goes.
pub(crate) fn count(troubles: &mut Vec<TroubleSpec>, sid: u8)
    ensures { troubles.new.items ≡ counted sid troubles.old.items }
{
    for i in 0..troubles.len() {
        lower(&mut troubles[i], sid);
    }
    troubles.retain(|t| t.nth > 0);
}

fn act_of(alloc: Global, act: &Act) -> Result<Act, NoMemory>
    ensures { IfOk result (λ made. made ≡ act.now) }
{
    match act {
        Act::Refuse { nrc } => Ok(Act::Refuse { nrc: *nrc }),
        Act::Odd { bytes } => {
            let bytes = Bytes::from_slice(alloc, bytes.as_slice())?;
            Ok(Act::Odd { bytes })
        }
        Act::Fail { status } => Ok(Act::Fail { status: *status }),
        Act::Mute => Ok(Act::Mute),
        Act::Delay { ticks } => Ok(Act::Delay { ticks: *ticks }),
        Act::Busy { times } => Ok(Act::Busy { times: *times }),
        Act::Pending { ticks, until } => Ok(Act::Pending {
            ticks: *ticks,
            until: *until,
        }),
    }
}

/// A copy of the list.
pub(crate) fn copied(alloc: Global, troubles: &[TroubleSpec]) -> Result<Vec<TroubleSpec>, NoMemory>
    ensures { IfOk result (λ made. made.items ≡ troubles.now) }
{
    let mut made = Vec::with_capacity(alloc, troubles.len())?;
    for trouble in troubles {
        made.push(TroubleSpec {
            sid: trouble.sid,
            nth: trouble.nth,
            act: act_of(alloc, &trouble.act)?,
        })?;
    }
    Ok(made)
}
