ghost use Rattle.std.specs.Prelude.{◌≡◌, ◌<◌, [], ◌∷◌, ◌++◌, length, slice_get, Some, OnOk, OnErr};

use flash_base::{Bytes, NoMemory};
use std::alloc::Global;
use std::marker::Model;

/// A frame of DoIP (ISO 13400-2:2019, section 9), by its payload type.
///
/// Addresses are logical addresses of two bytes. Reserved bytes are no part of it: they are
/// read as anything and written as 0.
#[derive(Debug, Drop)]
pub enum Frame {
    /// 0x0000, generic header negative acknowledge.
    HeaderNack {
        code: u8,
    },
    /// 0x0005, routing activation request; `oem` are the four optional bytes, where they are there.
    Activate {
        source: u16,
        kind: u8,
        oem: Option<u32>,
    },
    /// 0x0006, routing activation response; code 0x10 says that the routing is activated.
    Activated {
        tester: u16,
        entity: u16,
        code: u8,
        oem: Option<u32>,
    },
    /// 0x0007, alive check request.
    AliveAsk,
    /// 0x0008, alive check response.
    AliveSay {
        source: u16,
    },
    /// 0x8001, diagnostic message; the body is a UDS message and not empty.
    Message {
        source: u16,
        target: u16,
        body: Bytes,
    },
    /// 0x8002, diagnostic message positive acknowledge; `old` is the beginning of the message, which may be left out.
    Ack {
        source: u16,
        target: u16,
        code: u8,
        old: Bytes,
    },
    /// 0x8003, diagnostic message negative acknowledge.
    Nack {
        source: u16,
        target: u16,
        code: u8,
        old: Bytes,
    },
    /// Another payload type.
    Other {
        kind: u16,
        payload: Bytes,
    },
}

/// Why the stream goes on no further.
#[derive(Clone, Copy, Debug)]
pub enum Bad {
    /// The header does not begin with version 3 and its inverse.
    Pattern,
    /// No frame of this kind has this length.
    Length { kind: u16 },
    /// The header says more than 65,600 bytes.
    TooLarge { said: u32 },
    /// An earlier piece had one of the others.
    Failed,
}

/// Frames, which contracts see as the list of them.
#[derive(Debug, Drop)]
pub struct Frames {
    inner: Vec<Frame>,
}

impl Model for Frames {
    ghost use Rattle.std.specs.Prelude.{List};
    ghost use Rattle.doip_frame.specs.declared.frame.Frame.{Frame};

    ghost Value = { List Frame };

    ghost view = { λ f. f.inner.items };
}

impl Frames {
    /// No frame.
    pub fn new(alloc: Global) -> Frames
        ensures { result ≡ [] }
    {
        Frames {
            inner: Vec::new(alloc),
        }
    }

    /// How many there are.
    pub fn len(&self) -> usize
        ensures { result ≡ length self.now }
    {
        self.inner.len()
    }

    /// Frame `i`, from 0.
    pub fn at(&self, i: usize) -> &Frame
        requires { i < length self.now }
        ensures { slice_get self.now i ≡ Some result.now }
    {
        &self.inner[i]
    }

    /// Puts a frame at the end; where there is no memory it is dropped.
    pub fn push(&mut self, item: Frame) -> Result<(), NoMemory>
        ensures ok { OnOk result (self.new ≡ self.old ++ item ∷ []) }
        ensures err { OnErr result (self.new ≡ self.old) }
    {
        self.inner.push(item)?;
        Ok(())
    }
}
