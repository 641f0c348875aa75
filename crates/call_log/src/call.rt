ghost use Rattle.std.specs.Prelude.{◌≡◌, ◌<◌, [], ◌∷◌, ◌++◌, length, slice_get, Some, OnOk, OnErr};

use flash_base::{Bytes, NoMemory};
use std::alloc::Global;
use std::marker::Model;

/// A call of a shop's link.
#[derive(Debug, Drop)]
pub enum LinkCall {
    /// The connection is made new.
    Redial,
    /// A receive of at most so many bytes.
    Receive { room: u32 },
    /// These bytes are sent.
    Send { bytes: Bytes },
}

/// Calls in their order, which contracts see as the list of them.
#[derive(Debug, Drop)]
pub struct Calls {
    inner: Vec<LinkCall>,
}

impl Model for Calls {
    ghost use Rattle.std.specs.Prelude.{List};
    ghost use Rattle.call_log.specs.declared.call.LinkCall.{LinkCall};

    ghost Value = { List LinkCall };

    ghost view = { λ c. c.inner.items };
}

impl Calls {
    /// No call.
    pub fn new(alloc: Global) -> Calls
        ensures { result ≡ [] }
    {
        Calls {
            inner: Vec::new(alloc),
        }
    }

    /// How many there are.
    pub fn len(&self) -> usize
        ensures { result ≡ length self.now }
    {
        self.inner.len()
    }

    /// Call `i`, from 0.
    pub fn at(&self, i: usize) -> &LinkCall
        requires { i < length self.now }
        ensures { slice_get self.now i ≡ Some result.now }
    {
        &self.inner[i]
    }

    /// Puts a call at the end; where there is no memory it is dropped.
    pub fn push(&mut self, item: LinkCall) -> Result<(), NoMemory>
        ensures ok { OnOk result (self.new ≡ self.old ++ item ∷ []) }
        ensures err { OnErr result (self.new ≡ self.old) }
    {
        self.inner.push(item)?;
        Ok(())
    }
}
