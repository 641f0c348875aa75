//! How a link call begins and ends on the disk beside the vehicle.

ghost use Rattle.std.specs.Prelude.{◌<◌, true};
ghost use Rattle.mem_disk.specs.Disks.{moment_of, LinkEnded};
ghost use Rattle.mem_disk.specs.Made.{call_of};
ghost use Rattle.shop_model.specs.History.{LAST};
ghost use Rattle.bench_shop.specs.Links.{LinkBegun};

use crate::faults::Faults;
use mem_disk::{Made, MemDisk};

/// Counts a link call. Whether it may be made: there was memory, and it is none that is to fail.
pub(crate) fn begin(disk: &mut MemDisk, plan: &Faults, made: Made) -> bool
    requires { moment_of disk.old < LAST }
    ensures { LinkBegun (call_of made) plan.now.link result disk.old disk.new }
{
    let listed = plan.link.as_slice().contains(&disk.link_calls());
    let recorded = disk.pass_link(made);
    recorded && !listed
}

/// A link call at the last moment.
pub(crate) fn late(disk: &mut MemDisk)
    ensures { LinkEnded true disk.old.linked disk.old disk.new }
{
    let linked = disk.is_linked();
    disk.end_link(true, linked);
}
