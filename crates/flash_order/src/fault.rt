use flash_base::{NoMemory, Text};

/// Why there is no order.
#[derive(Debug, Drop)]
pub enum OrderFault {
    /// The bytes are no JSON text: not UTF-8, against the grammar of JSON (RFC 8259), or with arrays
    /// and objects that nest more than 127 deep.
    NotJson,
    /// A member is missing, of the wrong kind, out of its range, or not in the table. `task` is the
    /// number of the task that it belongs to, from 0, and `field` its name, which for all inside a
    /// member is that member's.
    BadField { task: Option<u16>, field: Text },
    /// There was no memory.
    NoMemory,
}

impl From<NoMemory> for OrderFault {
    ghost use Rattle.std.specs.Prelude.{◌≡◌};
    ghost use Rattle.flash_order.specs.declared.fault.OrderFault.{OrderFault};

    ghost from_gives = { λ _ e. e ≡ OrderFault.NoMemory };

    fn from(_e: NoMemory) -> OrderFault {
        OrderFault::NoMemory
    }
}

/// Why a member was refused: the name that the refusal gives.
#[derive(Debug, Drop)]
pub(crate) enum FieldFault {
    Bad(Text),
    NoMemory,
}

impl From<NoMemory> for FieldFault {
    ghost use Rattle.std.specs.Prelude.{◌≡◌};
    ghost use Rattle.flash_order.specs.declared.fault.FieldFault.{FieldFault};

    ghost from_gives = { λ _ e. e ≡ FieldFault.NoMemory };

    fn from(_e: NoMemory) -> FieldFault {
        FieldFault::NoMemory
    }
}
