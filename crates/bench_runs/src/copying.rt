//! A plain copy, in pieces.
ghost use Rattle.std.specs.Prelude.{◌<◌};

use std::alloc::AllocError;

/// Copies the stream in pieces, in place of what the list had.
pub(crate) fn copy_into(copy: &mut Vec<u8>, stream: &[u8], piece: usize) -> Result<(), AllocError>
    requires { 0 < piece }
{
    copy.clear();
    let mut rest = stream;
    for _ in 0..stream.len() {
        if rest.is_empty() {
            break;
        }
        let n = rest.len().min(piece);
        copy.extend_from_slice(&rest[..n])?;
        rest = &rest[n..];
    }
    Ok(())
}
