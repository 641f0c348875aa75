//! One step of a unit.
ghost use Rattle.std.specs.Prelude.{◌≡◌, ◌<◌, ◌^◌, length, true, false, IfSome, OnOk, OnErr};
ghost use Rattle.flash_bay.specs.Calls.{Grows, MayEnd};
ghost use Rattle.flash_bay.specs.Recording.{HasRecordDue, records_next};
ghost use Rattle.flash_bay.specs.Sending.{IsReadyFor};
ghost use Rattle.flash_plan.specs.Plan.{count_of};
ghost use Rattle.flash_run.specs.Need.{need_of};
ghost use Rattle.flash_run.specs.Run.{is_open};
ghost use Rattle.flash_run.specs.declared.need.Need.TheVariants as need;
ghost use Rattle.flash_workers.specs.Growing.{Goes, is_gone};

use flash_base::NoMemory;
use flash_bay::{Bay, EndWhy, Need, SentReady, StepFault};
use flash_plan::Plan;
use shop_model::Shop;
use std::alloc::Global;
use turn_lock::Logged;
use unit_session::{Ready, prepare};

/// Makes the call that is due for the unit, and says whether one was. Where that call wanted memory, the unit
/// is ended.
///
/// `ready` is a request that was made for this unit before, at the place where it stood then. Where the unit
/// stands elsewhere by now, or none is given, the request is made here.
pub fn step<S: Shop>(
    alloc: Global,
    plan: &Plan,
    bay: &mut Bay<S>,
    unit: u16,
    ready: Option<&Ready>,
) -> bool
    requires plan { plan.now ≡ bay.old.run.plan }
    requires within { unit < count_of plan.now }
    requires ready { IfSome ready (λ r. IsReadyFor bay.old.run unit r.now) }
    ensures gone { result ≡ is_open bay.old.run unit }
    ensures rest { result ≡ false → bay.new ≡ bay.old }
    ensures grows { Grows bay.old bay.new }
    ensures event { result ≡ true → length bay.old.run.events < length bay.new.run.events }
    ensures few { length bay.new.run.events < 2 ^ 63 }
{
    let made = due(alloc, plan, bay, unit, ready);
    bay.count();
    made
}

/// The same without a bound on the number of events.
fn due<S: Shop>(
    alloc: Global,
    plan: &Plan,
    bay: &mut Bay<S>,
    unit: u16,
    ready: Option<&Ready>,
) -> bool
    requires plan { plan.now ≡ bay.old.run.plan }
    requires within { unit < count_of plan.now }
    requires ready { IfSome ready (λ r. IsReadyFor bay.old.run unit r.now) }
    ensures gone { result ≡ is_open bay.old.run unit }
    ensures rest { result ≡ false → bay.new ≡ bay.old }
    ensures goes { result ≡ true → Goes bay.old bay.new }
{
    let need = bay.need(plan, unit);
    if is_gone(need) {
        return false;
    }
    call(alloc, plan, bay, unit, ready, need);
    true
}

/// Whether no call is due.
fn is_gone(need: Need) -> bool
    ensures { result ≡ is_gone need }
{
    match need {
        Need::Gone => true,
        Need::Complete
        | Need::End
        | Need::Mark
        | Need::Tend
        | Need::Begin
        | Need::Send
        | Need::Collect => false,
    }
}

/// Makes the call that is due for the unit.
fn call<S: Shop>(
    alloc: Global,
    plan: &Plan,
    bay: &mut Bay<S>,
    unit: u16,
    ready: Option<&Ready>,
    need: Need,
)
    requires plan { plan.now ≡ bay.old.run.plan }
    requires within { unit < count_of plan.now }
    requires ready { IfSome ready (λ r. IsReadyFor bay.old.run unit r.now) }
    requires due { need_of bay.old.run unit ≡ need }
    requires some { is_gone need ≡ false }
    ensures { Goes bay.old bay.new }
{
    match need {
        Need::Gone => unreachable!(),
        Need::Complete => complete(plan, bay, unit),
        Need::Begin => record_all(plan, bay, unit),
        Need::Mark => record_all(plan, bay, unit),
        Need::End => end(plan, bay, unit, EndWhy::Due),
        Need::Tend => tend(plan, bay, unit),
        Need::Send => send(alloc, plan, bay, unit, ready),
        Need::Collect => collect(plan, bay, unit),
    }
}

/// The unit gets its outcome.
fn end<S: Shop>(plan: &Plan, bay: &mut Bay<S>, unit: u16, why: EndWhy)
    requires plan { plan.now ≡ bay.old.run.plan }
    requires within { unit < count_of plan.now }
    requires may { MayEnd bay.old.run unit why }
    ensures { Goes bay.old bay.new }
{
    bay.end(plan, unit, why);
}

/// The unit is ended for want of memory.
fn give_up<S: Shop>(plan: &Plan, bay: &mut Bay<S>, unit: u16)
    requires plan { plan.now ≡ bay.old.run.plan }
    requires within { unit < count_of plan.now }
    requires open { is_open bay.old.run unit ≡ true }
    ensures { Goes bay.old bay.new }
{
    end(plan, bay, unit, EndWhy::NoMemory);
}

/// What stands to be recorded of any unit is recorded. False where there is no memory for the group.
fn commit<S: Shop>(plan: &Plan, bay: &mut Bay<S>) -> bool
    requires plan { plan.now ≡ bay.old.run.plan }
    requires due { HasRecordDue bay.old.run }
    ensures made { result ≡ true → Goes bay.old bay.new }
    ensures wants { result ≡ false → bay.new ≡ bay.old }
{
    match bay.commit(plan) {
        Ok(_) => true,
        Err(StepFault::Disk) => true,
        Err(StepFault::NoMemory) => false,
    }
}

/// What stands to be recorded of any unit is recorded, and so that this one is complete. Where there is no
/// memory for the group, it is recorded of this one alone.
fn complete<S: Shop>(plan: &Plan, bay: &mut Bay<S>, unit: u16)
    requires plan { plan.now ≡ bay.old.run.plan }
    requires within { unit < count_of plan.now }
    requires due { need_of bay.old.run unit ≡ need.Complete }
    ensures { Goes bay.old bay.new }
{
    if commit(plan, bay) {
        return;
    }
    let _ = bay.complete(plan, unit);
}

/// What stands to be recorded of any unit is recorded. Where there is no memory for the group, this one is
/// ended.
fn record_all<S: Shop>(plan: &Plan, bay: &mut Bay<S>, unit: u16)
    requires plan { plan.now ≡ bay.old.run.plan }
    requires within { unit < count_of plan.now }
    requires due { records_next (need_of bay.old.run unit) ≡ true }
    ensures { Goes bay.old bay.new }
{
    if commit(plan, bay) {
        return;
    }
    give_up(plan, bay, unit);
}

/// One call of the link.
fn tend<S: Shop>(plan: &Plan, bay: &mut Bay<S>, unit: u16)
    requires plan { plan.now ≡ bay.old.run.plan }
    requires within { unit < count_of plan.now }
    requires due { need_of bay.old.run unit ≡ need.Tend }
    ensures { Goes bay.old bay.new }
{
    match bay.tend(plan) {
        Ok(_) => {}
        Err(_) => give_up(plan, bay, unit),
    }
}

/// One look for an answer.
fn collect<S: Shop>(plan: &Plan, bay: &mut Bay<S>, unit: u16)
    requires plan { plan.now ≡ bay.old.run.plan }
    requires within { unit < count_of plan.now }
    requires due { need_of bay.old.run unit ≡ need.Collect }
    ensures { Goes bay.old bay.new }
{
    match bay.collect(plan, unit) {
        Ok(_) => {}
        Err(_) => give_up(plan, bay, unit),
    }
}

/// The next request is sent.
fn send<S: Shop>(alloc: Global, plan: &Plan, bay: &mut Bay<S>, unit: u16, ready: Option<&Ready>)
    requires plan { plan.now ≡ bay.old.run.plan }
    requires within { unit < count_of plan.now }
    requires due { need_of bay.old.run unit ≡ need.Send }
    requires ready { IfSome ready (λ r. IsReadyFor bay.old.run unit r.now) }
    ensures { Goes bay.old bay.new }
{
    match send_one(alloc, plan, bay, unit, ready) {
        Ok(()) => {}
        Err(_) => give_up(plan, bay, unit),
    }
}

/// The request that was made before is sent, or else one that is made here. Where memory is wanting nothing
/// was called.
fn send_one<S: Shop>(
    alloc: Global,
    plan: &Plan,
    bay: &mut Bay<S>,
    unit: u16,
    ready: Option<&Ready>,
) -> Result<(), NoMemory>
    requires plan { plan.now ≡ bay.old.run.plan }
    requires within { unit < count_of plan.now }
    requires due { need_of bay.old.run unit ≡ need.Send }
    requires ready { IfSome ready (λ r. IsReadyFor bay.old.run unit r.now) }
    ensures ok { OnOk result (Goes bay.old bay.new) }
    ensures err { OnErr result (bay.new ≡ bay.old) }
{
    match ready {
        Some(ready) => match bay.send_ready(plan, unit, ready) {
            Ok(SentReady::Sent) => Ok(()),
            Ok(SentReady::Lost) => Ok(()),
            Ok(SentReady::Stale) => send_anew(alloc, plan, bay, unit),
            Err(fault) => Err(fault),
        },
        None => send_anew(alloc, plan, bay, unit),
    }
}

/// The next request is made and sent. Where memory is wanting nothing was called.
fn send_anew<S: Shop>(
    alloc: Global,
    plan: &Plan,
    bay: &mut Bay<S>,
    unit: u16,
) -> Result<(), NoMemory>
    requires plan { plan.now ≡ bay.old.run.plan }
    requires within { unit < count_of plan.now }
    requires due { need_of bay.old.run unit ≡ need.Send }
    ensures ok { OnOk result (Goes bay.old bay.new) }
    ensures err { OnErr result (bay.new ≡ bay.old) }
{
    plan.is_accepted();
    let spot = bay.spot(plan, unit);
    let ready = prepare(alloc, bay.tester(), plan.unit(unit), unit, spot)?;
    bay.send_ready(plan, unit, &ready)?;
    Ok(())
}
