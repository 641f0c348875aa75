//! Downloads, uploads and their blocks.

ghost use Rattle.std.specs.Prelude.{◌≡◌, ◌≤◌, ◌∷◌, [], length, IfOk, IsTrue, Some};
ghost use Rattle.flash_base.specs.ByteMaps.{bytes_of};
ghost use Rattle.uds_codec.specs.declared.request.Request.{Request};
ghost use Rattle.unit_model.specs.Rules.{transfer_in};
ghost use Rattle.unit_model.specs.Running.{control_unit};
ghost use Rattle.unit_model.specs.Unit.{obey, block_bytes, block_number};
ghost use Rattle.unit_sim.specs.Changes.{stepped, MayChange};
ghost use Rattle.unit_sim.specs.Transfers.{IsLow, IsBlock, repeats, size_up, block_again};

use crate::change::{Change, Step, next_counter, refuse};
use crate::security::is_locked;
use flash_base::{Bytes, NoMemory, Width};
use std::alloc::Global;
use uds_codec::code::{
    INCORRECT_MESSAGE_LENGTH_OR_INVALID_FORMAT, REQUEST_OUT_OF_RANGE, REQUEST_SEQUENCE_ERROR,
    SECURITY_ACCESS_DENIED, SERVICE_NOT_SUPPORTED_IN_ACTIVE_SESSION, TRANSFER_DATA_SUSPENDED,
    WRONG_BLOCK_SEQUENCE_COUNTER,
};
use uds_codec::service::{
    POSITIVE_RESPONSE, REQUEST_DOWNLOAD, REQUEST_TRANSFER_EXIT, REQUEST_UPLOAD, TRANSFER_DATA,
};
use unit_model::{Transfer, Unit};

/// The longest whole TransferData request.
fn block_number(unit: &Unit) -> u32
    ensures { result ≡ block_number (control_unit unit.now) }
{
    unit.block
}

/// A first byte, and a block number in the fewest bytes.
fn numbered(alloc: Global, first: u8, n: u32) -> Result<Bytes, NoMemory>
    ensures { IfOk result (λ b. b ≡ first ∷ block_bytes n) }
{
    let b = [
        (n / 0x100_0000) as u8,
        (n / 0x1_0000 % 0x100) as u8,
        (n / 0x100 % 0x100) as u8,
        (n % 0x100) as u8,
    ];
    if n < 0x100 {
        Bytes::from_slice(alloc, &[first, 0x10, b[3]])
    } else if n < 0x1_0000 {
        Bytes::from_slice(alloc, &[first, 0x20, b[2], b[3]])
    } else if n < 0x100_0000 {
        Bytes::from_slice(alloc, &[first, 0x30, b[1], b[2], b[3]])
    } else {
        Bytes::from_slice(alloc, &[first, 0x40, b[0], b[1], b[2], b[3]])
    }
}

/// RequestDownload.
pub(crate) fn download<'a>(
    alloc: Global,
    unit: &Unit,
    _width: Width,
    at: u64,
    size: u64,
) -> Result<Step<'a>, NoMemory>
    requires { IsLow at size }
    ensures is { IfOk result (λ s. stepped s (control_unit unit.now) ≡ obey (control_unit unit.now)
        (Request.Download _width at size)) }
    ensures may { IfOk result (λ s. MayChange s.change unit.now) }
{
    if unit.session != 2 {
        return refuse(
            alloc,
            REQUEST_DOWNLOAD,
            SERVICE_NOT_SUPPORTED_IN_ACTIVE_SESSION,
        );
    }
    if is_locked(unit) {
        return refuse(alloc, REQUEST_DOWNLOAD, SECURITY_ACCESS_DENIED);
    }
    if !unit.memory.has(at, size) {
        return refuse(alloc, REQUEST_DOWNLOAD, REQUEST_OUT_OF_RANGE);
    }
    let first = REQUEST_DOWNLOAD + POSITIVE_RESPONSE;
    let answer = numbered(alloc, first, block_number(unit))?;
    Ok(Step {
        change: Change::Downloads { at, size },
        answer,
    })
}

/// RequestUpload.
pub(crate) fn upload<'a>(
    alloc: Global,
    unit: &Unit,
    _width: Width,
    at: u64,
    size: u64,
) -> Result<Step<'a>, NoMemory>
    requires { IsLow at size }
    ensures is { IfOk result (λ s. stepped s (control_unit unit.now) ≡ obey (control_unit unit.now)
        (Request.Upload _width at size)) }
    ensures may { IfOk result (λ s. MayChange s.change unit.now) }
{
    if unit.session != 2 {
        return refuse(
            alloc,
            REQUEST_UPLOAD,
            SERVICE_NOT_SUPPORTED_IN_ACTIVE_SESSION,
        );
    }
    if is_locked(unit) {
        return refuse(alloc, REQUEST_UPLOAD, SECURITY_ACCESS_DENIED);
    }
    if !unit.memory.has(at, size) {
        return refuse(alloc, REQUEST_UPLOAD, REQUEST_OUT_OF_RANGE);
    }
    let first = REQUEST_UPLOAD + POSITIVE_RESPONSE;
    let answer = numbered(alloc, first, block_number(unit))?;
    Ok(Step {
        change: Change::Uploads { at, size },
        answer,
    })
}

/// The counter is that of the last block.
fn is_repeat(t: &Transfer, counter: u8) -> bool
    ensures { result ≡ repeats t.now counter }
{
    t.last.is_some() && next_counter(counter) == t.counter
}

/// A block was taken: the answer says its counter.
fn taken<'a>(alloc: Global, change: Change<'a>, counter: u8) -> Result<Step<'a>, NoMemory>
    ensures { IfOk result (λ s. (s.change ≡ change.entry) × (s.answer ≡ 118 ∷ counter ∷ [])) }
{
    let answer = Bytes::from_slice(alloc, &[TRANSFER_DATA + POSITIVE_RESPONSE, counter])?;
    Ok(Step { change, answer })
}

/// TransferData with a block; the block before it once more is answered again.
pub(crate) fn receive<'a>(
    alloc: Global,
    unit: &Unit,
    counter: u8,
    body: &'a [u8],
) -> Result<Step<'a>, NoMemory>
    requires { length body.now ≤ 65533 }
    ensures is { IfOk result (λ s. stepped s (control_unit unit.now) ≡ obey (control_unit unit.now)
        (Request.Transfer counter body.now)) }
    ensures may { IfOk result (λ s. MayChange s.change unit.now) }
{
    if unit.session != 2 {
        return refuse(
            alloc,
            TRANSFER_DATA,
            SERVICE_NOT_SUPPORTED_IN_ACTIVE_SESSION,
        );
    }
    let Some(t) = &unit.transfer else {
        return refuse(alloc, TRANSFER_DATA, REQUEST_SEQUENCE_ERROR);
    };
    if t.up {
        return refuse(
            alloc,
            TRANSFER_DATA,
            INCORRECT_MESSAGE_LENGTH_OR_INVALID_FORMAT,
        );
    }
    if is_repeat(t, counter) {
        return taken(alloc, Change::Nothing, counter);
    }
    if counter != t.counter {
        return refuse(alloc, TRANSFER_DATA, WRONG_BLOCK_SEQUENCE_COUNTER);
    }
    if (block_number(unit) as usize) < body.len() + 2 {
        return refuse(
            alloc,
            TRANSFER_DATA,
            INCORRECT_MESSAGE_LENGTH_OR_INVALID_FORMAT,
        );
    }
    if t.rest < body.len() as u64 {
        return refuse(alloc, TRANSFER_DATA, TRANSFER_DATA_SUSPENDED);
    }
    taken(alloc, Change::Written { body }, counter)
}

/// A block of the memory, behind its counter.
fn block<'a>(
    alloc: Global,
    unit: &Unit,
    change: Change<'a>,
    counter: u8,
    at: u64,
    size: u64,
) -> Result<Step<'a>, NoMemory>
    requires { IsBlock at size unit.now.memory }
    ensures { IfOk result (λ s. (s.change ≡ change.entry)
        × (s.answer ≡ 118 ∷ counter ∷ bytes_of at size unit.now.memory)) }
{
    let mut answer = Vec::with_capacity(alloc, 2 + size as usize)?;
    answer.extend_from_slice(&[TRANSFER_DATA + POSITIVE_RESPONSE, counter])?;
    unit.memory.read(at, size, &mut answer)?;
    Ok(Step {
        change,
        answer: Bytes::from_vec(answer),
    })
}

/// The last block once more.
fn again<'a>(alloc: Global, unit: &Unit, t: &Transfer, counter: u8) -> Result<Step<'a>, NoMemory>
    requires { IsTrue (transfer_in unit.now.memory (Some t.now)) }
    ensures { IfOk result (λ s. (s.change ≡ Change.Nothing)
        × (s.answer ≡ 118 ∷ counter ∷ block_again (control_unit unit.now) t.now)) }
{
    match t.last {
        None => taken(alloc, Change::Nothing, counter),
        Some(size) => block(alloc, unit, Change::Nothing, counter, t.at - size, size),
    }
}

/// How many bytes the next block up has.
fn block_up(unit: &Unit, t: &Transfer) -> u64
    ensures { result ≡ size_up (control_unit unit.now) t.now }
{
    let room = block_number(unit).saturating_sub(2).min(65_533);
    t.rest.min(u64::from(room))
}

/// TransferData that asks for a block; the block before it once more is given again.
pub(crate) fn give<'a>(alloc: Global, unit: &Unit, counter: u8) -> Result<Step<'a>, NoMemory>
    ensures is { IfOk result (λ s. stepped s (control_unit unit.now) ≡ obey (control_unit unit.now)
        (Request.Pull counter)) }
    ensures may { IfOk result (λ s. MayChange s.change unit.now) }
{
    if unit.session != 2 {
        return refuse(
            alloc,
            TRANSFER_DATA,
            SERVICE_NOT_SUPPORTED_IN_ACTIVE_SESSION,
        );
    }
    let Some(t) = &unit.transfer else {
        return refuse(alloc, TRANSFER_DATA, REQUEST_SEQUENCE_ERROR);
    };
    if !t.up {
        return refuse(
            alloc,
            TRANSFER_DATA,
            INCORRECT_MESSAGE_LENGTH_OR_INVALID_FORMAT,
        );
    }
    if is_repeat(t, counter) {
        return again(alloc, unit, t, counter);
    }
    if t.rest == 0 {
        return refuse(alloc, TRANSFER_DATA, REQUEST_SEQUENCE_ERROR);
    }
    if counter != t.counter {
        return refuse(alloc, TRANSFER_DATA, WRONG_BLOCK_SEQUENCE_COUNTER);
    }
    let size = block_up(unit, t);
    block(alloc, unit, Change::Given { size }, counter, t.at, size)
}

/// RequestTransferExit: of the transfer no byte may be left.
pub(crate) fn exit<'a>(alloc: Global, unit: &Unit) -> Result<Step<'a>, NoMemory>
    ensures is { IfOk result (λ s. stepped s (control_unit unit.now) ≡ obey
        (control_unit unit.now) Request.Exit) }
    ensures may { IfOk result (λ s. MayChange s.change unit.now) }
{
    if unit.session != 2 {
        return refuse(
            alloc,
            REQUEST_TRANSFER_EXIT,
            SERVICE_NOT_SUPPORTED_IN_ACTIVE_SESSION,
        );
    }
    let Some(t) = &unit.transfer else {
        return refuse(alloc, REQUEST_TRANSFER_EXIT, REQUEST_SEQUENCE_ERROR);
    };
    if t.rest != 0 {
        return refuse(alloc, REQUEST_TRANSFER_EXIT, REQUEST_SEQUENCE_ERROR);
    }
    let answer = Bytes::from_slice(alloc, &[REQUEST_TRANSFER_EXIT + POSITIVE_RESPONSE])?;
    Ok(Step {
        change: Change::Closed,
        answer,
    })
}
