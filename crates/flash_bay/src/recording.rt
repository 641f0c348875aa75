//! The records of a bay: of each unit that waits for one in one group, or of one that is complete.
ghost use Rattle.std.specs.Prelude.{◌≡◌, ◌<◌};
ghost use Rattle.flash_bay.specs.Recording.{Commits, HasCompleted, HasRecordDue};
ghost use Rattle.flash_plan.specs.Plan.{count_of};
ghost use Rattle.flash_run.specs.Need.{need_of};
ghost use Rattle.flash_run.specs.declared.need.Need.TheVariants as need;

use crate::answers::StepFault;
use crate::bay::Bay;
use bay_core::Event;
use flash_journal::DiskFault;
use flash_plan::{Entry, Plan};
use shop_model::Shop;

impl<S: Shop> Bay<S> {
    /// Records all that stands to be recorded, of each unit its own entry, ascending: the bodies in one write and
    /// the gates in another, each synced, as far as the closed slots from the lowest one on reach. It says how many.
    ///
    /// After a fault of the disk the bay is stopped.
    pub fn commit(&mut self, plan: &Plan) -> Result<u16, StepFault>
        requires plan { plan.now ≡ self.old.run.plan }
        requires due { HasRecordDue self.old.run }
        ensures { Commits S.history self.old result self.new }
    {
        self.run.is_kept();
        self.run.is_group_due();
        let Ok(group) = self.run.group(self.alloc, plan) else {
            return Err(StepFault::NoMemory);
        };
        let Ok(()) = self.run.reserve(group.len()) else {
            return Err(StepFault::NoMemory);
        };
        match self.journal.append_group(&mut self.shop, group.as_slice()) {
            Ok(count) => {
                self.run.record(plan, &group, count as usize);
                Ok(count)
            }
            Err(_) => {
                self.run.fail(plan, &group);
                Err(StepFault::Disk)
            }
        }
    }

    /// Records that the unit is complete. After a fault of the disk the bay is stopped. It wants no memory.
    pub fn complete(&mut self, plan: &Plan, unit: u16) -> Result<(), DiskFault>
        requires plan { plan.now ≡ self.old.run.plan }
        requires within { unit < count_of plan.now }
        requires due { need_of self.old.run unit ≡ need.Complete }
        ensures { HasCompleted S.history unit self.old result self.new }
    {
        self.run.is_kept();
        self.run.is_due();
        let entry = Entry::Complete(unit);
        match self.journal.append_group(&mut self.shop, &[entry]) {
            Ok(_) => {
                self.run.note(plan, Event::Completed { unit });
                Ok(())
            }
            Err(fault) => {
                self.run.note(plan, Event::DiskFailed { unit, entry });
                Err(fault)
            }
        }
    }
}
