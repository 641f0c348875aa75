use flash_base::Items;

/// A trouble that a gateway will have; numbers count from 1.
///
/// Where several of a list apply to one request or message, the first acts, and it counts for the others as if they had acted.
#[derive(Clone, Copy, Debug)]
pub enum GatewayTrouble {
    /// The nth activation request is answered with this code.
    Deny { nth: u32, code: u8 },
    /// The nth activation request is not answered.
    Silent { nth: u32 },
    /// The nth message to this unit is not delivered, and answered with this code.
    Nack { unit: u16, nth: u32, code: u8 },
    /// An alive check is sent at this tick, while a tester is activated.
    Alive { tick: u64 },
}

/// What a gateway is made of: its logical address, its troubles, at most 1,000, and the addresses of the units behind it.
///
/// Every number is at least 1, and every tick is below 2^63.
#[derive(Debug, Drop)]
pub struct GatewaySpec {
    pub entity: u16,
    pub gateway: Items<GatewayTrouble>,
    pub units: Items<u16>,
}
