//! A worker of a crew.
ghost use Rattle.std.specs.Prelude.{◌≡◌, ◌<◌, true, false, IfSome};
ghost use Rattle.flash_plan.specs.Plan.{count_of, plan_of};
ghost use Rattle.flash_workers.specs.Crew.{ClaimsInTurn, HasUnit, IsAtRest, IsReadyOf, IsTesterOf, StepsInTurn};
ghost use Rattle.unit_session.specs.Spots.{IsAsking};

use crate::bell::Bell;
use crate::desk::Desk;
use crate::gate::Gate;
use crate::holding::{Stand, ready_at};
use crate::shift::Shift;
use crate::watcher::Watcher;
use flash_plan::Plan;
use shop_model::Shop;
use std::alloc::Global;
use std::sync::Wait;
use std::thread;
use turn_lock::{Pass, Turn};
use unit_session::Ready;

// How often a worker whose unit only waits lets other threads run before it asks for the bay again. Tickets are
// served in their order, so without this each waiting worker has a holding between any two of one that has work.
const YIELDS: u32 = 32;

/// A pass, and the unit that its holder has claimed and not brought to its end.
#[derive(Drop)]
pub struct Worker<S: Shop> {
    pub pass: Pass<Desk<S>>,
    pub unit: Option<u16>,
}

/// Takes the bay once, and claims the lowest unit that is ready.
pub fn claim_in_turn<R: Wait, S: Shop>(
    rt: &R,
    turn: &Turn<Desk<S>>,
    pass: &mut Pass<Desk<S>>,
    plan: &Plan,
) -> Option<u16>
    requires { IsAtRest turn.now plan.now pass.old }
    ensures claims { ClaimsInTurn result pass.old pass.new }
    ensures unit { HasUnit plan.now result }
{
    let mut desk = turn.take(rt, pass);
    let claimed = desk.claim(plan);
    turn.give(pass, desk);
    claimed
}

/// Takes the bay once, and makes one step of the unit.
pub fn step_in_turn<R: Wait, S: Shop>(
    rt: &R,
    alloc: Global,
    turn: &Turn<Desk<S>>,
    pass: &mut Pass<Desk<S>>,
    plan: &Plan,
    unit: u16,
    ready: Option<&Ready>,
) -> Stand
    requires pass { IsAtRest turn.now plan.now pass.old }
    requires within { unit < count_of plan.now }
    requires ready { IfSome ready (λ r. IsReadyOf pass.old.opening unit r.now) }
    ensures steps { StepsInTurn unit result.made pass.old pass.new }
    ensures tester { IsTesterOf pass.old.opening result.tester }
    ensures next { IfSome result.next (IsAsking (plan_of plan.now unit)) }
{
    let mut desk = turn.take(rt, pass);
    let stand = desk.step(alloc, plan, unit, ready);
    turn.give(pass, desk);
    stand
}

/// Lets other threads run, where the unit only waits.
fn pause(waits: bool) {
    if waits {
        for _ in 0..YIELDS {
            thread::yield_now();
        }
    }
}

/// Tells a watcher how the unit stands.
fn report<W: Watcher>(plan: &Plan, unit: u16, stand: Stand, watcher: &W)
    requires { unit < count_of plan.now }
{
    if !stand.made {
        watcher.ended(plan, unit);
    } else if let Some(spot) = stand.next {
        watcher.stands(plan, unit, spot);
    }
}

impl<S: Shop> Worker<S> {
    /// Claims units and brings each to its end, until there is none to claim or the bell rings. The unit that it
    /// has then stays its own.
    pub fn run<R: Wait, G: Gate, W: Watcher>(
        &mut self,
        rt: &R,
        turn: &Turn<Desk<S>>,
        plan: &Plan,
        shift: &Shift<'_, G, W>,
    )
        requires pass { IsAtRest turn.now plan.now self.old.pass }
        requires unit { HasUnit plan.now self.old.unit }
        ensures pass { IsAtRest turn.now plan.now self.new.pass }
        ensures unit { HasUnit plan.now self.new.unit }
    {
        for _ in rt.forever() {
            if shift.bell.is_rung() {
                return;
            }
            match self.unit {
                Some(unit) => {
                    if self.serve(rt, turn, plan, unit, shift) {
                        return;
                    }
                }
                None => {
                    if !self.seek(rt, turn, plan, &shift.bell) {
                        return;
                    }
                }
            }
        }
        unreachable!()
    }

    /// Claims a unit. A worker that finds none counts as away.
    fn seek<R: Wait>(&mut self, rt: &R, turn: &Turn<Desk<S>>, plan: &Plan, bell: &Bell) -> bool
        requires pass { IsAtRest turn.now plan.now self.old.pass }
        ensures pass { IsAtRest turn.now plan.now self.new.pass }
        ensures unit { HasUnit plan.now self.new.unit }
    {
        bell.look();
        self.unit = claim_in_turn(rt, turn, &mut self.pass, plan);
        if self.unit.is_none() {
            return false;
        }
        bell.found();
        true
    }

    /// Makes steps of the unit until it has its outcome, or the bell rings; says whether it rang. Each next
    /// request is made between two holdings.
    fn serve<R: Wait, G: Gate, W: Watcher>(
        &mut self,
        rt: &R,
        turn: &Turn<Desk<S>>,
        plan: &Plan,
        unit: u16,
        shift: &Shift<'_, G, W>,
    ) -> bool
        requires pass { IsAtRest turn.now plan.now self.old.pass }
        requires unit { HasUnit plan.now self.old.unit }
        requires within { unit < count_of plan.now }
        ensures pass { IsAtRest turn.now plan.now self.new.pass }
        ensures unit { HasUnit plan.now self.new.unit }
    {
        let mut ready: Option<Ready> = None;
        for _ in rt.forever() {
            if shift.bell.is_rung() {
                return true;
            }
            shift.gate.pass(unit);
            let stand = step_in_turn(
                rt,
                shift.alloc,
                turn,
                &mut self.pass,
                plan,
                unit,
                ready.as_ref(),
            );
            report(plan, unit, stand, shift.watcher);
            if !stand.made {
                self.unit = None;
                shift.bell.ring();
                return false;
            }
            pause(stand.waits);
            ready = ready_at(shift.alloc, plan, unit, stand);
        }
        unreachable!()
    }
}
