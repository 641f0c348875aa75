//! Requests of a bay that are made outside its turn.
ghost use Rattle.std.specs.Prelude.{◌≡◌, ◌<◌, IfOk, IfErr};
ghost use Rattle.flash_bay.specs.Sending.{IsReadyFor, SendsReady, sent_as, spot_in};
ghost use Rattle.flash_plan.specs.Plan.{count_of, plan_of};
ghost use Rattle.flash_run.specs.Need.{need_of};
ghost use Rattle.flash_run.specs.declared.need.Need.TheVariants as need;
ghost use Rattle.unit_session.specs.Spots.{IsAsking};

use crate::bay::Bay;
use bay_core::Event;
use flash_base::NoMemory;
use flash_plan::Plan;
use gateway_link::deliver;
use shop_model::Shop;
use unit_session::{Ready, Spot};

/// What became of a request that was made before.
#[derive(Clone, Copy, Debug, PartialEq, Eq)]
pub enum SentReady {
    /// It was sent.
    Sent,
    /// The link was lost in this step.
    Lost,
    /// The unit stands elsewhere than it was made for; nothing was called.
    Stale,
}

/// Sent, or the link was lost.
fn said(lost: bool) -> SentReady
    ensures { result ≡ sent_as lost }
{
    if lost {
        SentReady::Lost
    } else {
        SentReady::Sent
    }
}

impl<S: Shop> Bay<S> {
    /// The address from which requests are sent (ISO 13400-2, the external test equipment).
    pub fn tester(&self) -> u16
        ensures { result ≡ self.now.run.rules.tester }
    {
        self.run.rules().tester
    }

    /// Where the conversation of the unit stands, by numbers: `prepare` makes its next request from this and the
    /// unit's plan. It wants no memory.
    pub fn spot(&self, plan: &Plan, unit: u16) -> Spot
        requires plan { plan.now ≡ self.now.run.plan }
        requires within { unit < count_of plan.now }
        requires due { need_of self.now.run unit ≡ need.Send }
        ensures is { result ≡ spot_in self.now.run unit }
        ensures asks { IsAsking (plan_of plan.now unit) result }
    {
        self.run.is_due();
        self.run.spot(plan, unit)
    }

    /// Sends a request that was made for this unit, where the unit still stands at its spot. Where memory is wanting
    /// nothing was called.
    pub fn send_ready(
        &mut self,
        plan: &Plan,
        unit: u16,
        ready: &Ready,
    ) -> Result<SentReady, NoMemory>
        requires plan { plan.now ≡ self.old.run.plan }
        requires within { unit < count_of plan.now }
        requires due { need_of self.old.run unit ≡ need.Send }
        requires ready { IsReadyFor self.old.run unit ready.now }
        ensures ok { IfOk result (λ said. SendsReady S.tells_vehicle S.history unit ready.now self.old said
            self.new) }
        ensures memory { IfErr result (λ _. self.new ≡ self.old) }
    {
        self.run.is_kept();
        self.run.is_due();
        let here = self.run.spot(plan, unit);
        if ready.spot() != here {
            return Ok(SentReady::Stale);
        }
        let place = self.run.number(plan, unit);
        self.run.reserve(1)?;
        let lost = deliver(&mut self.shop, ready.frame());
        self.run.note(plan, Event::Sent { unit, place, lost });
        Ok(said(lost))
    }
}
