ghost use Rattle.std.specs.Prelude.{◌≤◌, length, IsTrue, IfOk, IfErr};
ghost use Rattle.gateway_link.specs.Calls.{RedialsOnce, SendsOnce, ReceivesOnce, StraysOnce};

use flash_base::{Bytes, NoMemory};
use shop_model::{Got, Shop};
use std::alloc::Global;

/// The most bytes of one receive.
const ROOM: usize = 4096;

/// What one receive brought.
#[derive(Debug, Drop)]
pub enum Came {
    /// No byte was due: a tick has passed.
    Quiet,
    /// These bytes, 1 to 4,096.
    Piece(Bytes),
    /// The call failed.
    Lost,
}

/// Makes the connection new; whether that failed.
pub fn redial<S: Shop>(shop: &mut S) -> bool
    ensures { RedialsOnce S.tells_vehicle (S.history shop.old) (S.history shop.new) result }
{
    match shop.redial() {
        Ok(()) => false,
        Err(_) => true,
    }
}

/// Sends a frame; whether that failed.
pub fn deliver<S: Shop>(shop: &mut S, frame: &[u8]) -> bool
    requires linked { IsTrue (S.history shop.old).linked }
    requires some { 1 ≤ length frame.now }
    requires few { length frame.now ≤ 65600 }
    ensures { SendsOnce S.tells_vehicle frame.now (S.history shop.old) (S.history shop.new) result }
{
    match shop.send(frame) {
        Ok(()) => false,
        Err(_) => true,
    }
}

/// One receive of at most 4,096 bytes. Where there is no memory for what it brought, the bytes are gone.
pub fn receive<S: Shop>(alloc: Global, shop: &mut S) -> Result<Came, NoMemory>
    requires { IsTrue (S.history shop.old).linked }
    ensures came { IfOk result (ReceivesOnce S.tells_vehicle (S.history shop.old) (S.history shop.new)) }
    ensures stray { IfErr result (λ _. StraysOnce S.tells_vehicle (S.history shop.old) (S.history shop.new)) }
{
    let mut out = [0u8; ROOM];
    match shop.receive(&mut out) {
        Ok(Got::Quiet) => Ok(Came::Quiet),
        Ok(Got::Bytes(n)) => Ok(Came::Piece(Bytes::from_slice(alloc, &out[..n])?)),
        Err(_) => Ok(Came::Lost),
    }
}
