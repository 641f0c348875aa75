ghost use Rattle.std.specs.Prelude.{◌≡◌, ◌≢◌, ◌<◌, ℕ, [], ◌∷◌, ◌++◌, length, drop, is_some, OnOk, OnErr, IfOk};
ghost use Rattle.link_state.specs.Inboxes.{queue_at, first_of, IsPlaceOf};

use flash_base::{Bytes, NoMemory};
use std::alloc::Global;
use std::collections::VecDeque;
use std::marker::Model;

/// What came for one unit.
#[derive(Debug, Drop)]
pub enum Message {
    /// A diagnostic message of the unit.
    Reply(Bytes),
    /// The gateway could not deliver a request; the code is that of payload type 0x8003.
    Nack(u8),
}

/// The messages of one unit, which contracts see as the list of them, the oldest first.
#[derive(Debug, Drop)]
pub struct Inbox {
    messages: VecDeque<Message>,
}

impl Model for Inbox {
    ghost use Rattle.std.specs.Prelude.{List};
    ghost use Rattle.link_state.specs.declared.inbox.Message.{Message};

    ghost Value = { List Message };

    ghost view = { λ b. b.messages.items };
}

impl Inbox {
    /// An inbox with no message; it takes no memory.
    pub fn new(alloc: Global) -> Inbox
        ensures { result ≡ [] }
    {
        Inbox {
            messages: VecDeque::new(alloc),
        }
    }

    fn put(&mut self, message: Message) -> Result<(), NoMemory>
        ensures ok { OnOk result (self.new ≡ self.old ++ message ∷ []) }
        ensures err { OnErr result (self.new ≡ self.old) }
    {
        self.messages.push_back(message)?;
        Ok(())
    }

    fn take(&mut self) -> Option<Message>
        ensures first { result ≡ first_of self.old }
        ensures rest { self.new ≡ drop 1 self.old }
    {
        self.messages.pop_front()
    }

    fn has_any(&self) -> bool
        ensures { result ≡ is_some (first_of self.now) }
    {
        !self.messages.is_empty()
    }

    fn clear(&mut self)
        ensures { self.new ≡ [] }
    {
        self.messages.clear();
    }
}

/// The place of the unit with this address.
pub fn place_of(units: &Vec<u16>, address: u16) -> Option<usize>
    ensures { IsPlaceOf units.now.items address result }
{
    for (i, unit) in units.iter().enumerate() {
        if *unit == address {
            return Some(i);
        }
    }
    None
}

/// Puts a message behind the others of an inbox.
pub fn put(inboxes: &mut Vec<Inbox>, n: usize, message: Message) -> Result<(), NoMemory>
    requires { n < length inboxes.old.items }
    ensures there { OnOk result (queue_at inboxes.new.items n
        ≡ queue_at inboxes.old.items n ++ message ∷ []) }
    ensures others { (k : ℕ) → k ≢ n → queue_at inboxes.new.items k ≡ queue_at inboxes.old.items k }
    ensures size { length inboxes.new.items ≡ length inboxes.old.items }
{
    let inbox = &mut inboxes[n];
    inbox.put(message)
}

/// Takes the oldest message of an inbox.
pub fn take_first(inboxes: &mut Vec<Inbox>, n: usize) -> Option<Message>
    requires { n < length inboxes.old.items }
    ensures first { result ≡ first_of (queue_at inboxes.old.items n) }
    ensures rest { queue_at inboxes.new.items n ≡ drop 1 (queue_at inboxes.old.items n) }
    ensures others { (k : ℕ) → k ≢ n → queue_at inboxes.new.items k ≡ queue_at inboxes.old.items k }
    ensures size { length inboxes.new.items ≡ length inboxes.old.items }
{
    let inbox = &mut inboxes[n];
    inbox.take()
}

/// Whether an inbox has a message.
pub fn has_any(inboxes: &Vec<Inbox>, n: usize) -> bool
    requires { n < length inboxes.now.items }
    ensures { result ≡ is_some (first_of (queue_at inboxes.now.items n)) }
{
    inboxes[n].has_any()
}

/// Empties each inbox.
pub fn clear(inboxes: &mut Vec<Inbox>)
    ensures none { (k : ℕ) → queue_at inboxes.new.items k ≡ [] }
    ensures size { length inboxes.new.items ≡ length inboxes.old.items }
{
    for i in 0..inboxes.len() {
        let inbox = &mut inboxes[i];
        inbox.clear();
    }
}

/// So many empty inboxes.
pub fn empty(alloc: Global, size: usize) -> Result<Vec<Inbox>, NoMemory>
    ensures none { IfOk result (λ v. (k : ℕ) → queue_at v.items k ≡ []) }
    ensures size { IfOk result (λ v. length v.items ≡ size) }
{
    let mut inboxes = Vec::with_capacity(alloc, size)?;
    for _ in 0..size {
        inboxes.push(Inbox::new(alloc))?;
    }
    Ok(inboxes)
}
