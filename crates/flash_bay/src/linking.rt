//! One receive, as an event of a run tells it.
ghost use Rattle.std.specs.Prelude.{◌≡◌, IsTrue, IfOk, IfErr};
ghost use Rattle.bay_law.specs.Device.{HearsOnce};
ghost use Rattle.flash_bay.specs.Receiving.{heard_of};
ghost use Rattle.gateway_link.specs.Calls.{StraysOnce};

use bay_core::Heard;
use flash_base::NoMemory;
use gateway_link::{Came, receive};
use shop_model::Shop;
use std::alloc::Global;

/// What a receive has brought, as an event tells it.
fn heard(came: Came) -> Heard
    ensures { result ≡ heard_of came }
{
    match came {
        Came::Quiet => Heard::Quiet,
        Came::Piece(bytes) => Heard::Piece(bytes),
        Came::Lost => Heard::Lost,
    }
}

/// One receive of at most 4,096 bytes. Where there is no memory for what it brought, the bytes are gone.
pub(crate) fn hear<S: Shop>(alloc: Global, shop: &mut S) -> Result<Heard, NoMemory>
    requires { IsTrue (S.history shop.old).linked }
    ensures heard { IfOk result (HearsOnce S.tells_vehicle (S.history shop.old) (S.history shop.new)) }
    ensures stray { IfErr result (λ _. StraysOnce S.tells_vehicle (S.history shop.old) (S.history shop.new)) }
{
    let came = receive(alloc, shop)?;
    Ok(heard(came))
}
