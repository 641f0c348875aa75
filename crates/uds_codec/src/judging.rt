//! What an answer says to the request that it answers (ISO 14229-1).

ghost use Rattle.std.specs.Prelude.{◌≡◌, ◌+◌, ◌≤◌};
ghost use Rattle.uds_codec.specs.Answer.{negative, negative_of, after_one, seed_form, status_form, routine_form, id_form, block_form, form_of, Accepted};
ghost use Rattle.uds_codec.specs.Awaited.{awaited_by, request_like, service_of, judged, verdict_of, IsJudged};

use crate::code::{BUSY_REPEAT_REQUEST, RESPONSE_PENDING};
use crate::number::number;
use crate::request::Request;
use crate::service::{
    COMMUNICATION_CONTROL, CONTROL_DTC_SETTING, DIAGNOSTIC_SESSION_CONTROL, ECU_RESET,
    NEGATIVE_RESPONSE, POSITIVE_RESPONSE, READ_DATA_BY_IDENTIFIER, REQUEST_DOWNLOAD,
    REQUEST_TRANSFER_EXIT, REQUEST_UPLOAD, ROUTINE_CONTROL, SECURITY_ACCESS, TRANSFER_DATA,
};

/// What of a request the form of its answers depends on: the request without its data.
#[derive(Clone, Copy, Debug, PartialEq, Eq)]
pub enum Awaited {
    Session { kind: u8 },
    Seed { level: u8 },
    /// The level is the odd one, as in the request for its seed.
    Key { level: u8 },
    ReadId { did: u16 },
    Routine { id: u16 },
    Download,
    Upload,
    Transfer { counter: u8 },
    Pull { counter: u8 },
    Exit,
    Reset,
    Setting { off: bool },
    Messages { off: bool },
}

/// What an answer says.
#[derive(Clone, Copy)]
pub enum Verdict<'a> {
    /// A positive response in the form of its request. The record stands behind the form's beginning: the value of an
    /// identifier, a seed, the bytes of a block number (maxNumberOfBlockLength), the data of a block that was asked for,
    /// and of the others what more there is.
    Accepted { record: &'a [u8] },
    /// A positive response of a routine that ended with a status other than 0.
    BadStatus { status: u8 },
    /// The negative response requestCorrectlyReceived-ResponsePending: the answer itself comes later.
    Pending,
    /// The negative response busyRepeatRequest: the request is to be sent again.
    Busy,
    /// A negative response with another code.
    Refusal { code: u8 },
    /// No answer to this request, or one that is not in the form.
    Malformed,
}

impl Request {
    ghost use Rattle.std.specs.Prelude.{◌≡◌};
    ghost use Rattle.uds_codec.specs.Awaited.{awaited_by};

    /// What the form of its answers depends on.
    pub fn awaited(&self) -> Awaited
        ensures { result ≡ awaited_by self.now }
    {
        match self {
            Request::Session { kind } => Awaited::Session { kind: *kind },
            Request::Reset => Awaited::Reset,
            Request::ReadId { did } => Awaited::ReadId { did: *did },
            Request::Seed { level } => Awaited::Seed { level: *level },
            Request::Key { level, .. } => Awaited::Key { level: *level },
            Request::Routine { id, .. } => Awaited::Routine { id: *id },
            Request::Download { .. } => Awaited::Download,
            Request::Upload { .. } => Awaited::Upload,
            Request::Transfer { counter, .. } => Awaited::Transfer { counter: *counter },
            Request::Pull { counter } => Awaited::Pull { counter: *counter },
            Request::Exit => Awaited::Exit,
            Request::Setting { off } => Awaited::Setting { off: *off },
            Request::Messages { off } => Awaited::Messages { off: *off },
        }
    }
}

impl Awaited {
    ghost use Rattle.std.specs.Prelude.{◌≡◌, ◌≤◌};
    ghost use Rattle.uds_codec.specs.Awaited.{service_of};

    /// The service of the request.
    pub fn service(self) -> u8
        ensures is { result ≡ service_of self }
        ensures most { result ≤ 133 }
    {
        match self {
            Awaited::Session { .. } => DIAGNOSTIC_SESSION_CONTROL,
            Awaited::Reset => ECU_RESET,
            Awaited::ReadId { .. } => READ_DATA_BY_IDENTIFIER,
            Awaited::Seed { .. } | Awaited::Key { .. } => SECURITY_ACCESS,
            Awaited::Routine { .. } => ROUTINE_CONTROL,
            Awaited::Download => REQUEST_DOWNLOAD,
            Awaited::Upload => REQUEST_UPLOAD,
            Awaited::Transfer { .. } | Awaited::Pull { .. } => TRANSFER_DATA,
            Awaited::Exit => REQUEST_TRANSFER_EXIT,
            Awaited::Setting { .. } => CONTROL_DTC_SETTING,
            Awaited::Messages { .. } => COMMUNICATION_CONTROL,
        }
    }
}

/// A negative response with this code.
fn refusal<'a>(code: u8) -> Verdict<'a>
    ensures { verdict_of result ≡ negative code }
{
    match code {
        RESPONSE_PENDING => Verdict::Pending,
        BUSY_REPEAT_REQUEST => Verdict::Busy,
        _ => Verdict::Refusal { code },
    }
}

/// A negative response, behind its first byte.
fn negative(service: u8, rest: &[u8]) -> Verdict<'_>
    ensures { verdict_of result ≡ negative_of service rest.now }
{
    match rest {
        [of, code] => {
            if *of == service {
                refusal(*code)
            } else {
                Verdict::Malformed
            }
        }
        _ => Verdict::Malformed,
    }
}

/// Behind a byte that is echoed; it may be above every byte.
fn echoed(rest: &[u8], byte: u16) -> Verdict<'_>
    ensures { verdict_of result ≡ after_one rest.now byte Accepted }
{
    match rest {
        [first, record @ ..] => {
            if u16::from(*first) == byte {
                Verdict::Accepted { record }
            } else {
                Verdict::Malformed
            }
        }
        [] => Verdict::Malformed,
    }
}

/// A seed of 1 to 32 bytes behind its level.
fn seed(rest: &[u8], level: u8) -> Verdict<'_>
    ensures { verdict_of result ≡ after_one rest.now level seed_form }
{
    match rest {
        [first, seed @ ..] => {
            if *first == level && !seed.is_empty() && seed.len() <= 32 {
                Verdict::Accepted { record: seed }
            } else {
                Verdict::Malformed
            }
        }
        [] => Verdict::Malformed,
    }
}

/// The value behind its identifier.
fn value(rest: &[u8], did: u16) -> Verdict<'_>
    ensures { verdict_of result ≡ id_form did rest.now }
{
    match rest {
        [high, low, value @ ..] => {
            if u16::from(*high) * 256 + u16::from(*low) == did {
                Verdict::Accepted { record: value }
            } else {
                Verdict::Malformed
            }
        }
        _ => Verdict::Malformed,
    }
}

/// A routine's status.
fn status(rest: &[u8]) -> Verdict<'_>
    ensures { verdict_of result ≡ status_form rest.now }
{
    match rest {
        [0, record @ ..] => Verdict::Accepted { record },
        [status, ..] => Verdict::BadStatus { status: *status },
        [] => Verdict::Malformed,
    }
}

/// A routine's status behind its identifier.
fn routine(rest: &[u8], id: u16) -> Verdict<'_>
    ensures { verdict_of result ≡ routine_form id rest.now }
{
    match rest {
        [kind, high, low, more @ ..] => {
            if *kind == 1 && u16::from(*high) * 256 + u16::from(*low) == id {
                status(more)
            } else {
                Verdict::Malformed
            }
        }
        _ => Verdict::Malformed,
    }
}

/// A block number that is 3 at least, in 1 to 8 bytes behind the byte that says how many.
fn block(rest: &[u8]) -> Verdict<'_>
    ensures { verdict_of result ≡ block_form rest.now }
{
    match rest {
        [digits, more @ ..] => {
            let size = usize::from(*digits / 16);
            if size < 1 || size > 8 || size > more.len() {
                return Verdict::Malformed;
            }
            let record = &more[..size];
            if number(record) >= 3 {
                Verdict::Accepted { record }
            } else {
                Verdict::Malformed
            }
        }
        [] => Verdict::Malformed,
    }
}

/// A positive response, behind its first byte.
fn positive(awaited: Awaited, rest: &[u8]) -> Verdict<'_>
    ensures { verdict_of result ≡ form_of (request_like awaited) rest.now }
{
    match awaited {
        Awaited::Session { kind } => echoed(rest, u16::from(kind)),
        Awaited::Reset => echoed(rest, 1),
        Awaited::ReadId { did } => value(rest, did),
        Awaited::Seed { level } => seed(rest, level),
        Awaited::Key { level } => echoed(rest, u16::from(level) + 1),
        Awaited::Routine { id } => routine(rest, id),
        Awaited::Download | Awaited::Upload => block(rest),
        Awaited::Transfer { counter } | Awaited::Pull { counter } => {
            echoed(rest, u16::from(counter))
        }
        Awaited::Exit => Verdict::Accepted { record: rest },
        Awaited::Setting { off } => echoed(rest, if off { 2 } else { 1 }),
        Awaited::Messages { off } => echoed(rest, if off { 3 } else { 0 }),
    }
}

fn found(awaited: Awaited, reply: &[u8]) -> Verdict<'_>
    ensures { verdict_of result ≡ judged awaited reply.now }
{
    match reply {
        [NEGATIVE_RESPONSE, rest @ ..] => negative(awaited.service(), rest),
        [first, rest @ ..] => {
            if *first == awaited.service() + POSITIVE_RESPONSE {
                positive(awaited, rest)
            } else {
                Verdict::Malformed
            }
        }
        [] => Verdict::Malformed,
    }
}

/// What these bytes say as the answer to a request of which this is awaited.
pub fn judge(awaited: Awaited, reply: &[u8]) -> Verdict<'_>
    ensures is { verdict_of result ≡ judged awaited reply.now }
    ensures answer { IsJudged awaited reply.now (verdict_of result) }
{
    found(awaited, reply)
}
