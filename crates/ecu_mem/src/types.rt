use flash_base::{Bytes, Items, Text};

/// A session: what one flash process of one unit needs (SESSION of the ECU-MEM layer,
/// ISO 22901-1).
#[derive(Debug, Drop)]
pub struct Session {
    /// The ID, by which an order names it.
    pub id: Text,
    /// The SHORT-NAME.
    pub name: Text,
    /// The datablocks, as positions in the document's list, in the session's order.
    pub blocks: Items<u64>,
    /// The values that the unit must have before (EXPECTED-IDENTS).
    pub idents: Items<Ident>,
    /// The checksums, in the order of the document.
    pub checks: Items<Check>,
}

/// A named identifier with its values (EXPECTED-IDENT and OWN-IDENT).
#[derive(Debug, Drop)]
pub struct Ident {
    /// The SHORT-NAME.
    pub name: Text,
    /// At least one, and none is empty.
    pub values: Items<Bytes>,
}

/// A checksum over a range of source addresses (CHECKSUM).
#[derive(Debug, Drop)]
pub struct Check {
    /// The SHORT-NAME.
    pub name: Text,
    /// The first source address.
    pub from: u64,
    /// In bytes, from 1.
    pub size: u64,
    /// The byte of addresses without data.
    pub fill: Option<u8>,
    /// The name of the algorithm, as it stands in the catalogue.
    pub alg: Text,
    /// The value that the checksum must have, the greatest byte first.
    pub result: Bytes,
}

/// A datablock: which parts of some flash data go where (DATABLOCK).
#[derive(Debug, Drop)]
pub struct Block {
    /// The ID, by which sessions name it.
    pub id: Text,
    /// The SHORT-NAME.
    pub name: Text,
    /// The flash data, as a position in the document's list.
    pub flash: u64,
    /// Ranges of source addresses, each an address and a size from 1.
    pub filters: Items<(u64, u64)>,
    /// Ranges of source addresses, each an address and a size from 1.
    pub segments: Items<(u64, u64)>,
    /// Whether the offset is subtracted; else it is added.
    pub down: bool,
    /// From source to target addresses, in bytes.
    pub offset: u64,
    /// What the data say of themselves (OWN-IDENTS).
    pub own: Items<Ident>,
}

/// Flash data (FLASHDATA).
#[derive(Debug, Drop)]
pub struct Flash {
    /// The ID, by which datablocks name it.
    pub id: Text,
    /// How the data are written.
    pub format: Format,
    /// Neither compressed nor encrypted.
    pub plain: bool,
    /// Where the data are.
    pub source: Source,
}

/// How flash data are written (DATAFORMAT).
#[derive(Clone, Copy, Debug, PartialEq, Eq)]
pub enum Format {
    IntelHex,
    MotorolaS,
    Binary,
    UserDefined,
}

/// Where flash data are.
#[derive(Debug, Drop)]
pub enum Source {
    /// In the catalogue itself, without blanks at its ends.
    Inside(Text),
    /// In the file with this name.
    File(Text),
}

/// The resolved document: all sessions, datablocks and flash data, each in document order.
#[derive(Debug, Drop)]
pub struct EcuMem {
    /// Of all ECU-MEM elements.
    pub sessions: Items<Session>,
    /// Named by position in `Session::blocks`.
    pub blocks: Items<Block>,
    /// Named by position in `Block::flash`.
    pub flashes: Items<Flash>,
}
