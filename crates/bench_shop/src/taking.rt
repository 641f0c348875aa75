//! A receive, which may be garbled.

ghost use Rattle.std.specs.Prelude.{◌≡◌, ◌+◌, ◌≤◌, ◌<◌, ◌^◌, ◌||◌, None, IfOk, IfSome, OnOk, length};
ghost use Rattle.std.specs.Option.{is_some, option_map};
ghost use Rattle.std.specs.Result.{is_err};
ghost use Rattle.shop_model.specs.History.{Received, IsPiece};
ghost use Rattle.vehicle_world.specs.Worlds.{polled, world_of};
ghost use Rattle.bench_shop.specs.Benches.{Brings, FailsHungry, Went};
ghost use Rattle.bench_shop.specs.Pasts.{last_of, tick_of, vehicle_of};

use crate::bench::Bench;
use disk_model::DeviceFault;
use flash_base::Bytes;
use shop_model::Got;

/// Takes what is due, or brings the first bytes of this piece instead, if it may.
pub(crate) fn take(
    bench: &mut Bench,
    moment: u64,
    piece: Option<&Bytes>,
    out: &mut [u8],
    may: bool,
) -> Result<Got, DeviceFault>
    requires early { tick_of bench.old.world < 2 ^ 63 }
    requires last { last_of bench.old.past ≤ moment }
    requires moment { moment < 2 ^ 63 }
    requires hungry { bench.old.hungry < 2 ^ 63 }
    requires some { IfSome piece (λ b. 1 ≤ length b.now) }
    requires room { 1 ≤ length out.old }
    ensures piece { IfOk result (IsPiece (length out.old)) }
    ensures brings { IfOk result (Brings (option_map (λ b. b.now) piece.entry) out.new) }
    ensures received { Received out.new (option_map (λ b. b.now) piece.entry ≡ None)
        (vehicle_of bench.old.world) (vehicle_of bench.new.world) result }
    ensures does { option_map (λ b. b.now) piece.entry ≡ None
        → OnOk result (world_of bench.new.world ≡ polled (length out.old) (world_of bench.old.world)) }
    ensures went { Went moment bench.old bench.new }
    ensures exact { FailsHungry may bench.old bench.new result }
    ensures tick { tick_of bench.new.world ≤ tick_of bench.old.world + 1 }
{
    match piece {
        Some(piece) => bench.garble(moment, piece.as_slice(), out, may),
        None => bench.receive(moment, out, may),
    }
}

/// Whether a fault of the link is counted: the receive failed or is garbled.
pub(crate) fn is_faulty(got: &Result<Got, DeviceFault>, piece: Option<&Bytes>) -> bool
    ensures { result ≡ is_err got.now || is_some (option_map (λ b. b.now) piece.entry) }
{
    got.is_err() || piece.is_some()
}
