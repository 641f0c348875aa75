//! The bytes of each request (ISO 14229-1), from its parts: bytes that are lent are copied once.

ghost use Rattle.std.specs.Prelude.{◌≡◌, ℕ, ◌+◌, ◌*◌, ◌/◌, ◌%◌, ◌^◌, ◌≤◌, ◌<◌, [], ◌∷◌, ◌++◌, length, IfOk, OnOk};
ghost use Rattle.flash_base.specs.Numbers.{big_endian, pow256};
ghost use Rattle.uds_codec.specs.Form.{HasForm, HasLength, IsLevel, IsRange};
ghost use Rattle.uds_codec.specs.Request.{spelled, range_bytes};

use crate::number::put_number;
use crate::request::Request;
use crate::service::{
    COMMUNICATION_CONTROL, CONTROL_DTC_SETTING, DIAGNOSTIC_SESSION_CONTROL, ECU_RESET,
    READ_DATA_BY_IDENTIFIER, REQUEST_DOWNLOAD, REQUEST_TRANSFER_EXIT, REQUEST_UPLOAD,
    ROUTINE_CONTROL, SECURITY_ACCESS, TRANSFER_DATA,
};
use flash_base::{Bytes, NoMemory, Width};
use std::alloc::Global;

/// Bytes that begin with the head and go on with the body.
fn joined(alloc: Global, head: &[u8], body: &[u8]) -> Result<Bytes, NoMemory>
    requires { length head.now ≤ 4 }
    ensures { IfOk result (λ b. b ≡ head.now ++ body.now) }
{
    let mut bytes = Vec::with_capacity(alloc, head.len() + body.len())?;
    bytes.extend_from_slice(head)?;
    bytes.extend_from_slice(body)?;
    Ok(Bytes::from_vec(bytes))
}

/// Puts a number of so many bytes at the end.
fn push_number(bytes: &mut Vec<u8>, width: u8, value: u64) -> Result<(), NoMemory>
    requires some { 1 ≤ width }
    requires few { width ≤ 5 }
    requires fits { value < pow256 width }
    ensures { OnOk result (bytes.new.items ≡ bytes.old.items ++ big_endian width value) }
{
    match width {
        1 => bytes.extend_from_slice(&put_number::<1>(value))?,
        2 => bytes.extend_from_slice(&put_number::<2>(value))?,
        3 => bytes.extend_from_slice(&put_number::<3>(value))?,
        4 => bytes.extend_from_slice(&put_number::<4>(value))?,
        5 => bytes.extend_from_slice(&put_number::<5>(value))?,
        _ => unreachable!(),
    }
    Ok(())
}

/// Puts an address and a size, each in its number of bytes, behind the byte that says these.
fn push_range(bytes: &mut Vec<u8>, width: Width, at: u64, size: u64) -> Result<(), NoMemory>
    requires { IsRange width at size }
    ensures { OnOk result (bytes.new.items ≡ bytes.old.items ++ range_bytes width at size) }
{
    bytes.push(width.size * 16 + width.at)?;
    push_number(bytes, width.at, at)?;
    push_number(bytes, width.size, size)?;
    Ok(())
}

/// Bytes that begin with the head, go on with an address and a size, and end with the body.
fn ranged(
    alloc: Global,
    head: &[u8],
    width: Width,
    at: u64,
    size: u64,
    body: &[u8],
) -> Result<Bytes, NoMemory>
    requires few { length head.now ≤ 4 }
    requires range { IsRange width at size }
    ensures { IfOk result (λ b. b ≡ head.now ++ (range_bytes width at size ++ body.now)) }
{
    let mut bytes = Vec::with_capacity(alloc, 14 + body.len())?;
    bytes.extend_from_slice(head)?;
    push_range(&mut bytes, width, at, size)?;
    bytes.extend_from_slice(body)?;
    Ok(Bytes::from_vec(bytes))
}

/// DiagnosticSessionControl: 1 default, 2 programming, 3 extended.
pub fn session(alloc: Global, kind: u8) -> Result<Bytes, NoMemory>
    requires some { 1 ≤ kind }
    requires few { kind ≤ 3 }
    ensures { IfOk result (λ b. b ≡ spelled (Request.Session kind)) }
{
    joined(alloc, &[DIAGNOSTIC_SESSION_CONTROL, kind], &[])
}

/// ECUReset, the hard reset.
pub fn reset(alloc: Global) -> Result<Bytes, NoMemory>
    ensures { IfOk result (λ b. b ≡ spelled Request.Reset) }
{
    joined(alloc, &[ECU_RESET, 1], &[])
}

/// ReadDataByIdentifier, of one identifier.
pub fn read_id(alloc: Global, did: u16) -> Result<Bytes, NoMemory>
    ensures { IfOk result (λ b. b ≡ spelled (Request.ReadId did)) }
{
    let [high, low] = put_number::<2>(u64::from(did));
    joined(alloc, &[READ_DATA_BY_IDENTIFIER, high, low], &[])
}

/// SecurityAccess, which asks for the seed of an odd level.
pub fn seed(alloc: Global, level: u8) -> Result<Bytes, NoMemory>
    requires { IsLevel level }
    ensures { IfOk result (λ b. b ≡ spelled (Request.Seed level)) }
{
    joined(alloc, &[SECURITY_ACCESS, level], &[])
}

/// SecurityAccess, which sends the key of the same odd level.
pub fn key(alloc: Global, level: u8, key: &[u8]) -> Result<Bytes, NoMemory>
    requires level { IsLevel level }
    requires size { HasLength 1 32 key.now }
    ensures { IfOk result (λ b. b ≡ spelled (Request.Key level key.now)) }
{
    joined(alloc, &[SECURITY_ACCESS, level + 1], key)
}

/// RoutineControl, which starts the routine with this option.
pub fn routine(alloc: Global, id: u16, option: &[u8]) -> Result<Bytes, NoMemory>
    ensures { IfOk result (λ b. b ≡ spelled (Request.Routine id option.now)) }
{
    let [high, low] = put_number::<2>(u64::from(id));
    joined(alloc, &[ROUTINE_CONTROL, 1, high, low], option)
}

/// RoutineControl, which starts the routine with an address, a size and some bytes behind them as its option.
pub fn routine_on(
    alloc: Global,
    id: u16,
    width: Width,
    at: u64,
    size: u64,
    more: &[u8],
) -> Result<Bytes, NoMemory>
    requires { IsRange width at size }
    ensures { IfOk result (λ b. b ≡ spelled (Request.Routine id (range_bytes width at size ++ more.now))) }
{
    let [high, low] = put_number::<2>(u64::from(id));
    ranged(
        alloc,
        &[ROUTINE_CONTROL, 1, high, low],
        width,
        at,
        size,
        more,
    )
}

/// RequestDownload, of plain data.
pub fn download(alloc: Global, width: Width, at: u64, size: u64) -> Result<Bytes, NoMemory>
    requires { IsRange width at size }
    ensures { IfOk result (λ b. b ≡ spelled (Request.Download width at size)) }
{
    ranged(alloc, &[REQUEST_DOWNLOAD, 0], width, at, size, &[])
}

/// RequestUpload, of plain data.
pub fn upload(alloc: Global, width: Width, at: u64, size: u64) -> Result<Bytes, NoMemory>
    requires { IsRange width at size }
    ensures { IfOk result (λ b. b ≡ spelled (Request.Upload width at size)) }
{
    ranged(alloc, &[REQUEST_UPLOAD, 0], width, at, size, &[])
}

/// TransferData, of one block that is sent.
pub fn transfer(alloc: Global, counter: u8, body: &[u8]) -> Result<Bytes, NoMemory>
    requires { HasLength 1 65533 body.now }
    ensures { IfOk result (λ b. b ≡ spelled (Request.Transfer counter body.now)) }
{
    joined(alloc, &[TRANSFER_DATA, counter], body)
}

/// TransferData, which asks for one block.
pub fn pull(alloc: Global, counter: u8) -> Result<Bytes, NoMemory>
    ensures { IfOk result (λ b. b ≡ spelled (Request.Pull counter)) }
{
    joined(alloc, &[TRANSFER_DATA, counter], &[])
}

/// RequestTransferExit.
pub fn exit(alloc: Global) -> Result<Bytes, NoMemory>
    ensures { IfOk result (λ b. b ≡ spelled Request.Exit) }
{
    joined(alloc, &[REQUEST_TRANSFER_EXIT], &[])
}

/// ControlDTCSetting: whether trouble codes are set, off or on.
pub fn setting(alloc: Global, off: bool) -> Result<Bytes, NoMemory>
    ensures { IfOk result (λ b. b ≡ spelled (Request.Setting off)) }
{
    let code = if off { 2 } else { 1 };
    joined(alloc, &[CONTROL_DTC_SETTING, code], &[])
}

/// CommunicationControl: whether normal messages are sent and received, off or on.
pub fn messages(alloc: Global, off: bool) -> Result<Bytes, NoMemory>
    ensures { IfOk result (λ b. b ≡ spelled (Request.Messages off)) }
{
    let code = if off { 3 } else { 0 };
    joined(alloc, &[COMMUNICATION_CONTROL, code, 1], &[])
}

/// The bytes of a request: its one spelling.
pub fn encode(alloc: Global, request: &Request) -> Result<Bytes, NoMemory>
    requires { HasForm request.now }
    ensures { IfOk result (λ b. b ≡ spelled request.now) }
{
    match request {
        Request::Session { kind } => session(alloc, *kind),
        Request::Reset => reset(alloc),
        Request::ReadId { did } => read_id(alloc, *did),
        Request::Seed { level } => seed(alloc, *level),
        Request::Key { level, key: bytes } => key(alloc, *level, bytes.as_slice()),
        Request::Routine { id, option } => routine(alloc, *id, option.as_slice()),
        Request::Download { width, at, size } => download(alloc, *width, *at, *size),
        Request::Upload { width, at, size } => upload(alloc, *width, *at, *size),
        Request::Transfer { counter, body } => transfer(alloc, *counter, body.as_slice()),
        Request::Pull { counter } => pull(alloc, *counter),
        Request::Exit => exit(alloc),
        Request::Setting { off } => setting(alloc, *off),
        Request::Messages { off } => messages(alloc, *off),
    }
}
