ghost use Rattle.std.specs.Prelude.{◌≡◌, ℕ, ◌+◌, ◌≤◌, ◌<◌, ◌++◌, [], Some, None, take, drop, length, IfOk, OnOk, OnErr, IfSome};
ghost use Rattle.doip_frame.specs.Deframe.{frames_in, bad_in, held_after, is_partial, left, Stops};
ghost use Rattle.doip_frame.specs.Frame.{stream_of, cut_frame, Partial};
ghost use Rattle.doip_frame.specs.Look.{missing_of};

use crate::cut::{Look, four, front};
use crate::frame::{Bad, Frames};
use crate::payload::read;
use flash_base::NoMemory;
use std::alloc::Global;
use std::marker::Model;

/// Cuts a stream into frames, in whatever pieces it comes.
///
/// Contracts see the bytes of the frame that has begun, or None after a refusal. Between two
/// pieces it holds these bytes alone, which are fewer than 65,608.
#[derive(Debug, Drop)]
pub struct Deframer {
    held: Vec<u8>,
    failed: bool,
    alloc: Global,
}

impl Model for Deframer {
    ghost use Rattle.std.specs.Prelude.{◌≡◌, ℕ, List, Option, Some, None, if◌then◌else◌};
    ghost use Rattle.doip_frame.specs.Frame.{cut_frame, Partial};

    ghost Value = { Option (List ℕ) };

    ghost view = { λ d. if d.failed then None else Some d.held.items };

    ghost invariant = { λ d. cut_frame d.held.items ≡ Partial };
}

/// The frames that a piece ended, and the refusal behind them.
#[derive(Debug, Drop)]
pub struct Fed {
    pub frames: Frames,
    pub bad: Option<Bad>,
}

/// The frames of a stream behind those that there are, the refusal, and how many bytes the frames take.
fn cut(alloc: Global, before: Frames, stream: &[u8]) -> Result<(Fed, usize), NoMemory>
    ensures within { IfOk result (λ r. r.1 ≤ length stream.now) }
    ensures frames { IfOk result (λ r. r.0.frames ≡ before ++ (stream_of stream.now).frames) }
    ensures bad { IfOk result (λ r. r.0.bad ≡ (stream_of stream.now).bad) }
    ensures rest { IfOk result (λ r. drop r.1 stream.now ≡ (stream_of stream.now).rest) }
{
    let mut frames = before;
    let mut used = 0;
    loop {
        match front(&stream[used..]) {
            Look::Refused(bad) => {
                return Ok((
                    Fed {
                        frames,
                        bad: Some(bad),
                    },
                    used,
                ));
            }
            Look::Part => return Ok((Fed { frames, bad: None }, used)),
            Look::Complete { kind, size } => {
                let start = used + 8;
                let frame = read(alloc, kind, &stream[start..start + size])?;
                frames.push(frame)?;
                used = start + size;
            }
        }
    }
}

/// How many bytes the beginning of a frame lacks, to its header's end or to its own.
fn missing(held: &[u8]) -> usize
    ensures { result ≡ missing_of held.now }
{
    let have = held.len();
    if have < 8 {
        return 8 - have;
    }
    let whole = 8 + four(held, 4) as usize;
    whole.saturating_sub(have)
}

/// Whether the bytes are the beginning of a frame.
fn is_part(held: &[u8]) -> bool
    ensures { result ≡ is_partial (cut_frame held.now) }
{
    match front(held) {
        Look::Part => true,
        Look::Refused(_) => false,
        Look::Complete { .. } => false,
    }
}

/// Adds to the beginning of a frame what the piece has of that frame, and says how many bytes it took.
fn fill(held: &mut Vec<u8>, piece: &[u8]) -> Result<usize, NoMemory>
    requires { cut_frame held.old.items ≡ Partial }
    ensures within { IfOk result (λ n. n ≤ length piece.now) }
    ensures ok { IfOk result (λ n. held.new.items ≡ held.old.items ++ take n piece.now) }
    ensures stops { IfOk result (λ n. Stops (cut_frame held.new.items) (drop n piece.now)) }
    ensures err { OnErr result (take (length held.old.items) held.new.items ≡ held.old.items) }
{
    let mut used = 0;
    while used < piece.len() && is_part(held) {
        let lacks = missing(held);
        held.reserve_exact(lacks)?;
        let n = lacks.min(piece.len() - used);
        held.extend_from_slice(&piece[used..used + n])?;
        used += n;
    }
    Ok(used)
}

/// The frames that the stream ends, behind those that there are. The rest is held in place of what was.
fn straight(
    held: &mut Vec<u8>,
    alloc: Global,
    before: Frames,
    stream: &[u8],
) -> Result<Fed, NoMemory>
    ensures frames { IfOk result (λ fed. fed.frames ≡ before ++ (stream_of stream.now).frames) }
    ensures bad { IfOk result (λ fed. fed.bad ≡ (stream_of stream.now).bad) }
    ensures held { OnOk result (held.new.items ≡ left (stream_of stream.now).bad
        (stream_of stream.now).rest) }
    ensures err { OnErr result (held.new.items ≡ held.old.items) }
{
    let (fed, used) = cut(alloc, before, stream)?;
    let rest = match fed.bad {
        None => Vec::from_slice(alloc, &stream[used..])?,
        Some(_) => Vec::new(alloc),
    };
    *held = rest;
    Ok(fed)
}

/// The frames that end in this piece, behind the bytes that are held. A refusal is all that may be held longer.
fn feed_on(held: &mut Vec<u8>, alloc: Global, piece: &[u8]) -> Result<Fed, NoMemory>
    requires { cut_frame held.old.items ≡ Partial }
    ensures frames { IfOk result (λ fed. fed.frames ≡ (stream_of (held.old.items ++ piece.now)).frames) }
    ensures bad { IfOk result (λ fed. fed.bad ≡ (stream_of (held.old.items ++ piece.now)).bad) }
    ensures held { OnOk result (held.new.items ≡ left (stream_of (held.old.items ++ piece.now)).bad
        (stream_of (held.old.items ++ piece.now)).rest) }
    ensures err { OnErr result (take (length held.old.items) held.new.items ≡ held.old.items) }
{
    let used = fill(held, piece)?;
    match front(held) {
        Look::Part => Ok(Fed {
            frames: Frames::new(alloc),
            bad: None,
        }),
        Look::Refused(bad) => {
            held.clear();
            Ok(Fed {
                frames: Frames::new(alloc),
                bad: Some(bad),
            })
        }
        Look::Complete { kind, .. } => {
            let frame = read(alloc, kind, &held[8..])?;
            let mut frames = Frames::new(alloc);
            frames.push(frame)?;
            straight(held, alloc, frames, &piece[used..])
        }
    }
}

/// The same, and where there is no memory what was held is held.
fn feed_into(held: &mut Vec<u8>, alloc: Global, piece: &[u8]) -> Result<Fed, NoMemory>
    requires { cut_frame held.old.items ≡ Partial }
    ensures frames { IfOk result (λ fed. fed.frames ≡ (stream_of (held.old.items ++ piece.now)).frames) }
    ensures bad { IfOk result (λ fed. fed.bad ≡ (stream_of (held.old.items ++ piece.now)).bad) }
    ensures held { OnOk result (held.new.items ≡ left (stream_of (held.old.items ++ piece.now)).bad
        (stream_of (held.old.items ++ piece.now)).rest) }
    ensures err { OnErr result (held.new.items ≡ held.old.items) }
{
    if held.is_empty() {
        return straight(held, alloc, Frames::new(alloc), piece);
    }
    let before = held.len();
    match feed_on(held, alloc, piece) {
        Ok(fed) => Ok(fed),
        Err(e) => {
            held.truncate(before);
            Err(e)
        }
    }
}

impl Deframer {
    /// At the beginning of a stream.
    pub fn new(alloc: Global) -> Deframer
        ensures { result ≡ Some [] }
    {
        Deframer {
            held: Vec::new(alloc),
            failed: false,
            alloc,
        }
    }

    /// The frames that end in this piece, in order, and the refusal behind them, if there is one.
    ///
    /// Frames before a refusal in the same piece are given. After it every call gives no frame and
    /// `Failed`. Where there is no memory nothing changes, and the same piece may be fed again.
    pub fn feed(&mut self, piece: &[u8]) -> Result<Fed, NoMemory>
        ensures frames { IfOk result (λ fed. fed.frames ≡ frames_in self.old piece.now) }
        ensures bad { IfOk result (λ fed. fed.bad ≡ bad_in self.old piece.now) }
        ensures held { OnOk result (self.new ≡ held_after self.old piece.now) }
        ensures bound { IfSome self.new (λ held. length held < 65608) }
        ensures err { OnErr result (self.new ≡ self.old) }
    {
        if self.failed {
            return Ok(Fed {
                frames: Frames::new(self.alloc),
                bad: Some(Bad::Failed),
            });
        }
        let fed = feed_into(&mut self.held, self.alloc, piece)?;
        self.failed = fed.bad.is_some();
        Ok(fed)
    }
}
