ghost use Rattle.std.specs.Prelude.{◌≡◌, ◌≤◌, ◌<◌, ◌-◌, ◌++◌, true, length, take, drop, IfOk};
ghost use Rattle.flash_plan.specs.Plan.{IsAcceptedUnit, segment_of};
ghost use Rattle.run_model.specs.Places.{needs_request};
ghost use Rattle.run_model.specs.Script.{bytes_at, range_record};
ghost use Rattle.sha2.specs.Sha256.{sha256};
ghost use Rattle.uds_codec.specs.Request.{spelled};
ghost use Rattle.unit_session.specs.Session.{place_at, IsStage};

use crate::keys::{key, level};
use crate::stage::Stage;
use flash_base::{Bytes, NoMemory};
use flash_plan::{Segment, UnitPlan};
use sha2::{Digest, Sha256};
use std::alloc::Global;
use uds_codec::service::{CHECK_PROGRAMMING_DEPENDENCIES, ERASE_MEMORY, PROGRAMMING_SESSION};
use uds_codec::{Request, write};

/// The segment with this number.
fn segment(unit: &UnitPlan, number: u16) -> &Segment
    requires { number < length unit.now.segments }
    ensures { result.now ≡ segment_of unit.now number }
{
    unit.segments.at(number as usize)
}

/// A routine over the range of a segment, with more behind it.
fn on_segment(
    alloc: Global,
    unit: &UnitPlan,
    number: u16,
    routine: u16,
    more: &[u8],
) -> Result<Bytes, NoMemory>
    requires accepted { IsAcceptedUnit unit.now }
    requires within { number < length unit.now.segments }
    ensures { IfOk result (λ b. b ≡ spelled (Request.Routine routine
        (range_record unit.now (segment_of unit.now number) ++ more.now))) }
{
    let segment = segment(unit, number);
    let size = segment.body.len() as u64;
    write::routine_on(alloc, routine, unit.width, segment.at, size, more)
}

fn download(alloc: Global, unit: &UnitPlan, number: u16) -> Result<Bytes, NoMemory>
    requires accepted { IsAcceptedUnit unit.now }
    requires within { number < length unit.now.segments }
    ensures { IfOk result (λ b. b ≡ bytes_at unit.now (place_at unit.now (Stage.Download number))) }
{
    let segment = segment(unit, number);
    write::download(alloc, unit.width, segment.at, segment.body.len() as u64)
}

fn block(
    alloc: Global,
    body: &[u8],
    sent: usize,
    counter: u8,
    limit: u16,
) -> Result<Bytes, NoMemory>
    requires sent { sent < length body.now }
    requires few { length body.now ≤ 16777216 }
    requires low { 3 ≤ limit }
    ensures { IfOk result (λ b. b ≡ spelled
        (Request.Transfer counter (take (limit - 2) (drop sent body.now)))) }
{
    let end = body.len().min(sent + (usize::from(limit) - 2));
    write::transfer(alloc, counter, &body[sent..end])
}

fn check(alloc: Global, unit: &UnitPlan, number: u16) -> Result<Bytes, NoMemory>
    requires accepted { IsAcceptedUnit unit.now }
    requires within { number < length unit.now.segments }
    ensures { IfOk result (λ b. b ≡ bytes_at unit.now (place_at unit.now (Stage.Check number))) }
{
    let digest = Sha256::digest(segment(unit, number).body.as_slice());
    on_segment(alloc, unit, number, unit.check, &digest)
}

fn ident(alloc: Global, unit: &UnitPlan, number: u16) -> Result<Bytes, NoMemory>
    requires stage { IsStage unit.now (Stage.Ident number) }
    requires needs { needs_request (place_at unit.now (Stage.Ident number)) ≡ true }
    ensures { IfOk result (λ b. b ≡ bytes_at unit.now (place_at unit.now (Stage.Ident number))) }
{
    write::read_id(alloc, unit.idents.at(number as usize).did)
}

/// The request at a stage (ISO 14229-1).
pub fn request(alloc: Global, unit: &UnitPlan, stage: Stage) -> Result<Bytes, NoMemory>
    requires accepted { IsAcceptedUnit unit.now }
    requires stage { IsStage unit.now stage }
    requires needs { needs_request (place_at unit.now stage) ≡ true }
    ensures { IfOk result (λ b. b ≡ bytes_at unit.now (place_at unit.now stage)) }
{
    match stage {
        Stage::Ident { number } => ident(alloc, unit, number),
        Stage::Program => write::session(alloc, PROGRAMMING_SESSION),
        Stage::Seed => write::seed(alloc, level(&unit.key)),
        Stage::Key { seed } => {
            let key = key(alloc, &unit.key, &seed.bytes[..usize::from(seed.size)])?;
            write::key(alloc, level(&unit.key), key.as_slice())
        }
        Stage::Erase { segment } => on_segment(alloc, unit, segment, ERASE_MEMORY, &[]),
        Stage::Download { segment } => download(alloc, unit, segment),
        Stage::Block {
            segment: number,
            sent,
            counter,
            limit,
        } => {
            let body = segment(unit, number).body.as_slice();
            block(alloc, body, sent, counter, limit)
        }
        Stage::Exit { .. } => write::exit(alloc),
        Stage::Check { segment } => check(alloc, unit, segment),
        Stage::Finish => write::routine(alloc, CHECK_PROGRAMMING_DEPENDENCIES, &[]),
        Stage::Reset => write::reset(alloc),
        Stage::Mark { .. } | Stage::Done | Stage::Ended { .. } => Ok(Bytes::new(alloc)),
    }
}
