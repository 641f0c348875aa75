//! What link calls do to the vehicle, where they may.
ghost use Rattle.std.specs.Prelude.{◌≡◌, ◌+◌, ◌≤◌, ◌<◌, ◌^◌, IsErr, IfOk, length};
ghost use Rattle.shop_model.specs.History.{Sent, Received, Redialed, IsPiece};
ghost use Rattle.shop_model.specs.Stepping.{StepsUnits};
ghost use Rattle.folder_shop.specs.Moments.{tick_of, vehicle_of};

use disk_model::DeviceFault;
use shop_model::each_link_call_is_unit_steps;
use unit_model::Got;
use vehicle_world::{World, nothing_sent};

/// Feeds the bytes, if it may; else it feeds none.
pub(crate) fn send(world: &mut World, bytes: &[u8], may: bool) -> Result<(), DeviceFault>
    requires early { tick_of world.old < 2 ^ 63 }
    ensures sent { Sent bytes.now (vehicle_of world.old) (vehicle_of world.new) result }
    ensures steps { ∥ StepsUnits (vehicle_of world.old) (vehicle_of world.new) ∥₁ }
    ensures tick { tick_of world.new ≡ tick_of world.old }
{
    each_link_call_is_unit_steps();
    if !may {
        nothing_sent(world);
        return Err(DeviceFault);
    }
    match world.feed(bytes) {
        Ok(()) => Ok(()),
        Err(_) => Err(DeviceFault),
    }
}

/// Takes what is due, if it may.
pub(crate) fn receive(world: &mut World, out: &mut [u8], may: bool) -> Result<Got, DeviceFault>
    requires early { tick_of world.old < 2 ^ 63 }
    requires room { 1 ≤ length out.old }
    ensures piece { IfOk result (IsPiece (length out.old)) }
    ensures received { Received out.new (Unit {0}) (vehicle_of world.old) (vehicle_of world.new) result }
    ensures steps { ∥ StepsUnits (vehicle_of world.old) (vehicle_of world.new) ∥₁ }
    ensures tick { tick_of world.new ≤ tick_of world.old + 1 }
{
    each_link_call_is_unit_steps();
    if !may {
        return Err(DeviceFault);
    }
    match world.poll(out) {
        Ok(got) => Ok(got),
        Err(_) => Err(DeviceFault),
    }
}

/// Makes the connection new, if it may.
pub(crate) fn redial(world: &mut World, may: bool) -> Result<(), DeviceFault>
    ensures redialed { Redialed (vehicle_of world.old) (vehicle_of world.new) result }
    ensures steps { ∥ StepsUnits (vehicle_of world.old) (vehicle_of world.new) ∥₁ }
    ensures tick { tick_of world.new ≡ tick_of world.old }
{
    each_link_call_is_unit_steps();
    if !may {
        return Err(DeviceFault);
    }
    world.redial();
    Ok(())
}
