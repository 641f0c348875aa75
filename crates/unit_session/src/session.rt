use crate::marks::Marks;
use crate::onward::{awaited, ended, erase, failed, onward, sid};
use crate::requests::request;
use crate::spot::{Spot, spot_at};
use crate::stage::Stage;
use flash_base::{Bytes, NoMemory};
use flash_plan::{Outcome, UnitPlan};
use run_model::PATIENCE;
use std::alloc::Global;
use uds_codec::{Verdict, judge};

/// What a conversation waits for.
#[derive(Clone, Copy, Debug, PartialEq, Eq)]
pub enum Ask {
    /// That the unit is begun is to be recorded.
    Begin,
    /// A request is to be sent.
    Send,
    /// An answer is awaited.
    Wait,
    /// The segment with this number holds its bytes and was found equal; that it is marked is to be recorded.
    Mark { segment: u16 },
    /// Each request was answered; that the unit is complete is to be recorded.
    Done,
    /// It ended with this outcome.
    Ended(Outcome),
}

/// The conversation with one unit of an accepted plan, kept as numbers: contracts see it as the
/// conversation `talk_of` of its unit.
#[derive(Clone, Copy, Debug, PartialEq, Eq)]
pub struct UnitSession {
    stage: Stage,
    begun: bool,
    marks: Marks,
    awaiting: bool,
    number: u32,
    since: u64,
    pendings: u8,
    busies: u8,
}

/// The responses pending to one sending of a request that are waited through.
const PENDINGS: u8 = 200;

/// The repeats of one request.
const BUSIES: u8 = 20;

impl UnitSession {
    ghost use Rattle.std.specs.Prelude.{◌≡◌, ◌<◌, ◌≤◌, ℕ, List, true, IfOk};
    ghost use Rattle.flash_plan.specs.Plan.{IsAcceptedUnit};
    ghost use Rattle.flash_plan.specs.declared.unit.UnitPlan.{UnitPlan};
    ghost use Rattle.run_model.specs.Places.{needs_request};
    ghost use Rattle.run_model.specs.Script.{bytes_at};
    ghost use Rattle.run_model.specs.Talk.{talk_start, talk_lost, talk_marked, talk_sent, talk_hears, talk_quiet, talk_judged, end_talk, sid_at};
    ghost use Rattle.run_model.specs.Ways.{Reply, Nacked};
    ghost use Rattle.uds_codec.specs.Answer.{Pending, Busy, Accepted};
    ghost use Rattle.uds_codec.specs.Awaited.{verdict_of};
    ghost use Rattle.unit_session.specs.Onward.{HasRecord};
    ghost use Rattle.unit_session.specs.Spots.{IsSpotOf};
    ghost use Rattle.unit_session.specs.Session.{talk_of, talk_of_any, has_mark, is_begun, ask_of, place_at, settled, IsStage, KnowsNext, IsOf, IsFewer};

    /// The conversation at its first request; `begun` says whether it is recorded that the unit is
    /// begun, `marks` which of its segments are recorded marked: these are left out.
    pub fn new(begun: bool, marks: Marks) -> UnitSession
        ensures talk { (u : UnitPlan) → talk_of u result ≡ talk_start u begun (has_mark marks) }
        ensures begun { is_begun result ≡ begun }
        ensures of { (u : UnitPlan) → IsAcceptedUnit u → IsOf u result }
    {
        UnitSession {
            stage: if begun {
                Stage::Program
            } else {
                Stage::Ident { number: 0 }
            },
            begun,
            marks,
            awaiting: false,
            number: 0,
            since: 0,
            pendings: 0,
            busies: 0,
        }
    }

    /// What is next.
    pub fn next(&self, unit: &UnitPlan) -> Ask
        requires { IsOf unit.now self.now }
        ensures { result ≡ ask_of unit.now (talk_of unit.now self.now) }
    {
        if self.awaiting {
            return Ask::Wait;
        }
        match self.stage {
            Stage::Ident { number } => {
                if usize::from(number) < unit.idents.len() {
                    Ask::Send
                } else {
                    Ask::Begin
                }
            }
            Stage::Mark { segment, .. } => Ask::Mark { segment },
            Stage::Done => Ask::Done,
            Stage::Ended { outcome } => Ask::Ended(outcome),
            Stage::Program
            | Stage::Seed
            | Stage::Key { .. }
            | Stage::Erase { .. }
            | Stage::Download { .. }
            | Stage::Block { .. }
            | Stage::Exit { .. }
            | Stage::Check { .. }
            | Stage::Finish
            | Stage::Reset => Ask::Send,
        }
    }

    /// How many final answers this attempt has: the number of the next request, from 0.
    pub fn number(&self) -> u32
        ensures { (u : UnitPlan) → result ≡ (talk_of u self.now).number }
    {
        self.number
    }

    /// Whether the answer to its last request is awaited.
    pub fn is_awaiting(&self) -> bool
        ensures { (u : UnitPlan) → result ≡ (talk_of u self.now).awaiting }
    {
        self.awaiting
    }

    /// How many responses pending have come since its last request was sent (ISO 14229-1, negative response
    /// code 0x78).
    pub fn pendings(&self) -> u8
        ensures { (u : UnitPlan) → result ≡ (talk_of u self.now).pendings }
    {
        self.pendings
    }

    /// Where it stands, by numbers.
    pub fn spot(&self) -> Spot
        ensures { (u : UnitPlan) → IsAcceptedUnit u → IsOf u self.now
            → IsSpotOf u (talk_of u self.now).place result }
    {
        spot_at(self.stage)
    }

    /// The bytes of the next request (ISO 14229-1).
    pub fn request(&self, alloc: Global, unit: &UnitPlan) -> Result<Bytes, NoMemory>
        requires accepted { IsAcceptedUnit unit.now }
        requires of { IsOf unit.now self.now }
        requires send { ask_of unit.now (talk_of unit.now self.now) ≡ Ask.Send }
        ensures { IfOk result (λ b. b ≡ bytes_at unit.now (talk_of unit.now self.now).place) }
    {
        request(alloc, unit, self.stage)
    }

    /// The request was sent at this tick.
    pub fn sent(&mut self, tick: u64)
        ensures talk { (u : UnitPlan) → talk_of u self.new ≡ talk_sent tick (talk_of u self.old) }
        ensures begun { is_begun self.new ≡ is_begun self.old }
        ensures of { (u : UnitPlan) → needs_request (talk_of u self.old).place ≡ true → IsOf u self.old
            → IsOf u self.new }
    {
        self.awaiting = true;
        self.since = tick;
        self.pendings = 0;
    }

    /// The conversation is over.
    fn end(&mut self, outcome: Outcome)
        ensures talk { (u : UnitPlan) → talk_of u self.new ≡ end_talk outcome (talk_of u self.old) }
        ensures begun { is_begun self.new ≡ is_begun self.old }
        ensures of { (u : UnitPlan) → IsOf u self.old → IsOf u self.new }
    {
        self.stage = Stage::Ended { outcome };
        self.awaiting = false;
    }

    /// A response pending: the 201st to one sending ends the conversation.
    fn pending(&mut self, sid: u8, tick: u64)
        requires { (talk_of_any self.old).pendings ≤ 200 }
        ensures talk { (u : UnitPlan) → sid ≡ sid_at u (talk_of u self.old)
            → talk_of u self.new ≡ talk_judged u tick Pending (talk_of u self.old) }
        ensures begun { is_begun self.new ≡ is_begun self.old }
        ensures of { (u : UnitPlan) → IsOf u self.old → IsOf u self.new }
    {
        if self.pendings == PENDINGS {
            self.end(Outcome::PendingLimit { sid });
        } else {
            self.since = tick;
            self.pendings += 1;
        }
    }

    /// A busy answer: the request is sent again, and the 21st ends the conversation.
    fn busy(&mut self, sid: u8)
        requires { (talk_of_any self.old).busies ≤ 20 }
        ensures talk { (u : UnitPlan) (tick : ℕ) → sid ≡ sid_at u (talk_of u self.old)
            → talk_of u self.new ≡ talk_judged u tick Busy (talk_of u self.old) }
        ensures begun { is_begun self.new ≡ is_begun self.old }
        ensures of { (u : UnitPlan) → IsOf u self.old → IsOf u self.new }
    {
        if self.busies == BUSIES {
            self.end(Outcome::BusyLimit { sid });
        } else {
            self.awaiting = false;
            self.pendings = 0;
            self.busies += 1;
        }
    }

    /// A final answer, and the stage that it leads to.
    fn settle(&mut self, stage: Stage)
        requires { (talk_of_any self.old).number < 4294967295 }
        ensures talk { (u : UnitPlan) → talk_of u self.new ≡ settled (place_at u stage) (talk_of u self.old) }
        ensures begun { is_begun self.new ≡ is_begun self.old }
        ensures of { (u : UnitPlan) → IsStage u stage → KnowsNext u (talk_of u self.old).marks stage
            → IsFewer u (place_at u stage) (talk_of u self.old).place → IsOf u self.old → IsOf u self.new }
    {
        self.stage = stage;
        self.number += 1;
        self.awaiting = false;
        self.pendings = 0;
        self.busies = 0;
    }

    /// An answer with this verdict.
    fn judged(&mut self, unit: &UnitPlan, verdict: Verdict<'_>, tick: u64)
        requires accepted { IsAcceptedUnit unit.now }
        requires of { IsOf unit.now self.old }
        requires needs { needs_request (talk_of unit.now self.old).place ≡ true }
        requires form { (rest : List ℕ) → verdict_of verdict ≡ Accepted rest → HasRecord self.old.stage rest }
        ensures talk { talk_of unit.now self.new ≡ talk_judged unit.now tick (verdict_of verdict.entry)
            (talk_of unit.now self.old) }
        ensures begun { is_begun self.new ≡ is_begun self.old }
        ensures of { IsOf unit.now self.new }
    {
        let sid = sid(self.stage);
        match verdict {
            Verdict::Pending => self.pending(sid, tick),
            Verdict::Busy => self.busy(sid),
            Verdict::Refusal { code } => {
                self.settle(ended(Outcome::Refused { sid, nrc: code }));
            }
            Verdict::BadStatus { status } => {
                let outcome = failed(unit, self.stage, status);
                self.settle(ended(outcome));
            }
            Verdict::Malformed => self.settle(ended(Outcome::BadAnswer { sid })),
            Verdict::Accepted { record } => {
                let stage = onward(unit, self.marks, self.stage, record);
                self.settle(stage);
            }
        }
    }

    /// An answer came (ISO 14229-1): a response pending waits on, a busy answer has the request sent again, and any
    /// other is final.
    pub fn hear(&mut self, unit: &UnitPlan, reply: &[u8], tick: u64)
        requires accepted { IsAcceptedUnit unit.now }
        requires of { IsOf unit.now self.old }
        requires wait { ask_of unit.now (talk_of unit.now self.old) ≡ Ask.Wait }
        ensures talk { talk_of unit.now self.new ≡ talk_hears unit.now tick (Reply reply.now)
            (talk_of unit.now self.old) }
        ensures begun { is_begun self.new ≡ is_begun self.old }
        ensures of { IsOf unit.now self.new }
    {
        let verdict = judge(awaited(unit, self.stage), reply);
        self.judged(unit, verdict, tick);
    }

    /// The gateway could not deliver the request (ISO 13400-2, payload type 0x8003).
    pub fn nack(&mut self, code: u8)
        ensures talk { (u : UnitPlan) (tick : ℕ)
            → talk_of u self.new ≡ talk_hears u tick (Nacked code) (talk_of u self.old) }
        ensures begun { is_begun self.new ≡ is_begun self.old }
        ensures of { (u : UnitPlan) → IsOf u self.old → IsOf u self.new }
    {
        self.end(Outcome::Undelivered { code });
    }

    /// A poll for this unit brought nothing; `tick` is the tick at its end. It ends the conversation 1,000 ticks or
    /// more after the last request or response pending.
    pub fn quiet(&mut self, tick: u64)
        ensures talk { (u : UnitPlan) → needs_request (talk_of u self.old).place ≡ true
            → talk_of u self.new ≡ talk_quiet u tick (talk_of u self.old) }
        ensures begun { is_begun self.new ≡ is_begun self.old }
        ensures of { (u : UnitPlan) → IsOf u self.old → IsOf u self.new }
    {
        if tick.saturating_sub(self.since) >= PATIENCE {
            let sid = sid(self.stage);
            self.end(Outcome::NoAnswer { sid });
        }
    }

    /// The link was lost: from Send or Wait the attempt starts again, with the marks that are recorded
    /// by then. At Mark, at Done and behind the end nothing changes; at Begin it is not to be called.
    pub fn lost(&mut self)
        ensures talk { (u : UnitPlan) → IsOf u self.old → (ask_of u (talk_of u self.old) ≡ Ask.Begin → ⊥)
            → talk_of u self.new ≡ talk_lost u (is_begun self.old) (talk_of u self.old) }
        ensures begun { is_begun self.new ≡ is_begun self.old }
        ensures of { (u : UnitPlan) → IsAcceptedUnit u → IsOf u self.old → IsOf u self.new }
    {
        match self.stage {
            Stage::Mark { .. } | Stage::Done | Stage::Ended { .. } => {}
            Stage::Ident { .. }
            | Stage::Program
            | Stage::Seed
            | Stage::Key { .. }
            | Stage::Erase { .. }
            | Stage::Download { .. }
            | Stage::Block { .. }
            | Stage::Exit { .. }
            | Stage::Check { .. }
            | Stage::Finish
            | Stage::Reset => *self = UnitSession::new(self.begun, self.marks),
        }
    }

    /// It was recorded that the unit is begun.
    pub fn begun(&mut self)
        ensures talk { (u : UnitPlan) → talk_of u self.new ≡ talk_start u true (talk_of u self.old).marks }
        ensures begun { is_begun self.new ≡ true }
        ensures of { (u : UnitPlan) → IsAcceptedUnit u → IsOf u self.new }
    {
        *self = UnitSession::new(true, self.marks);
    }

    /// It was recorded that the segment is marked which `next` names. The first one behind it that is
    /// not marked follows, or else the check of all.
    pub fn marked(&mut self)
        ensures talk { (u : UnitPlan) (segment : ℕ) → IsAcceptedUnit u → IsOf u self.old
            → ask_of u (talk_of u self.old) ≡ Ask.Mark segment
            → talk_of u self.new ≡ talk_marked segment (talk_of u self.old) }
        ensures begun { is_begun self.new ≡ is_begun self.old }
        ensures of { (u : UnitPlan) → IsAcceptedUnit u → IsOf u self.old → IsOf u self.new }
    {
        if let Stage::Mark { segment, next } = self.stage {
            self.marks = self.marks.with(segment);
            self.stage = erase(next);
        }
    }
}
