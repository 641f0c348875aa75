use std::alloc::Global;
use std::test::Fail;

/// The SHA-256 of the canonical bytes of the smallest plan: unit 1001 with the bytes `abc` at 1000.
pub const DIGEST: [u8; 32] = [
    0xA4, 0x15, 0x28, 0x29, 0x3B, 0xB2, 0xC3, 0xC3, 0xD8, 0x4B, 0xA5, 0x35, 0x57, 0xCF, 0xBE, 0x53,
    0x0F, 0x60, 0x31, 0xFC, 0x9B, 0xAE, 0x91, 0x6E, 0xC7, 0x10, 0x8F, 0xCF, 0x4F, 0x68, 0x3F, 0x7E,
];

/// The bodies of the entries of unit 0.
pub const BEGUN_BODY: [u8; 16] = [1, 0, 0, 0, 0, 0, 0, 0, 0, 0, 0, 0, 0, 0, 0, 0];

pub const MARKED_BODY: [u8; 16] = [3, 0, 0, 0, 0, 0, 0, 0, 0, 0, 0, 0, 0, 0, 0, 0];

pub const COMPLETE_BODY: [u8; 16] = [2, 0, 0, 0, 0, 0, 0, 0, 0, 0, 0, 0, 0, 0, 0, 0];

/// A header: the version, the number of slots, the digest and the last byte.
pub fn put_header(
    file: &mut Vec<u8>,
    version: u8,
    slots: u8,
    digest: &[u8; 32],
    last: u8,
) -> Result<(), Fail> {
    file.extend_from_slice(b"\xA5ODXFJNL")?;
    file.extend_from_slice(&[version, 0, 0, 0, 0, 0, 0, slots])?;
    file.extend_from_slice(digest)?;
    file.extend_from_slice(&[0; 15])?;
    file.push(last)?;
    Ok(())
}

/// The version 2 journal of the smallest plan, with everything recorded: 115 bytes.
pub fn put_new(file: &mut Vec<u8>) -> Result<(), Fail> {
    put_header(file, 2, 3, &DIGEST, 0)?;
    file.extend_from_slice(&[0xA5, 0xA5, 0xA5])?;
    file.extend_from_slice(&BEGUN_BODY)?;
    file.extend_from_slice(&MARKED_BODY)?;
    file.extend_from_slice(&COMPLETE_BODY)?;
    Ok(())
}

/// The version 1 journal of the smallest plan, begun and complete: 98 bytes.
pub fn put_old(file: &mut Vec<u8>, gates: [u8; 2], last: u8) -> Result<(), Fail> {
    put_header(file, 1, 2, &DIGEST, last)?;
    file.extend_from_slice(&gates)?;
    file.extend_from_slice(&BEGUN_BODY)?;
    file.extend_from_slice(&COMPLETE_BODY)?;
    Ok(())
}

/// Which file of the smallest plan.
#[derive(Clone, Copy, Debug, PartialEq, Eq)]
pub enum Base {
    /// Version 1, begun and complete: 98 bytes.
    Old,
    /// Version 2, begun, marked and complete: 115 bytes.
    New,
    /// A version 1 file that is begun, migrated, and then marked and completed: 213 bytes.
    Moved,
}

pub fn file_of(alloc: Global, base: Base) -> Result<Vec<u8>, Fail> {
    let mut file = Vec::new(alloc);
    match base {
        Base::Old => put_old(&mut file, [0xA5, 0xA5], 0)?,
        Base::New => put_new(&mut file)?,
        Base::Moved => {
            put_old(&mut file, [0xA5, 0], 0xA5)?;
            put_new(&mut file)?;
        }
    }
    Ok(file)
}
