//! What is said of a shop before its first call.

ghost use Rattle.bench_shop.specs.Faults.{IsFaults};

use bench_shop::Faults;
use flash_base::NoMemory;
use std::alloc::Global;
use test_rows::{bytes_of_digits, number};

/// The calls that fail, and what garbled receives bring.
#[derive(Drop)]
pub struct Setup {
    pub faults: Faults,
    ghost form: { IsFaults faults },
}

/// The most bytes of a piece.
const MOST_BYTES: usize = 4096;

impl Setup {
    /// No call fails.
    fn new(alloc: Global) -> Setup {
        Setup {
            faults: Faults::none(alloc),
        }
    }

    /// The receive with this number brings these bytes, if they are 1 to 4,096.
    fn bring(&mut self, alloc: Global, receive: u64, piece: &[u8]) -> Result<(), NoMemory> {
        if piece.is_empty() || piece.len() > MOST_BYTES {
            return Ok(());
        }
        self.faults.garble(alloc, receive, piece)
    }

    /// The receives from this one on bring the bytes in pieces of this size.
    fn cut(
        &mut self,
        alloc: Global,
        receive: u64,
        size: usize,
        bytes: &[u8],
    ) -> Result<(), NoMemory> {
        let mut receive = receive;
        let mut rest = bytes;
        for _ in 0..bytes.len() {
            let (piece, more) = rest.split_at(size.min(rest.len()));
            self.bring(alloc, receive, piece)?;
            receive = receive.saturating_add(1);
            rest = more;
        }
        Ok(())
    }

    /// One part.
    fn take(&mut self, alloc: Global, part: &str) -> Result<(), NoMemory> {
        let (word, rest) = part.split_once(':').unwrap_or((part, ""));
        let (count, rest) = rest.split_once(':').unwrap_or((rest, ""));
        let (size, digits) = rest.split_once(':').unwrap_or(("4096", rest));
        match word {
            "fails" => self.faults.link.push(number(count)),
            "brings" => {
                let bytes = bytes_of_digits(alloc, digits)?;
                self.cut(
                    alloc,
                    number(count),
                    number(size) as usize,
                    bytes.as_slice(),
                )
            }
            _ => Ok(()),
        }
    }
}

/// What the parts say, parted by blanks.
pub fn read(alloc: Global, parts: &str) -> Result<Setup, NoMemory> {
    let mut setup = Setup::new(alloc);
    for part in parts.split(' ') {
        setup.take(alloc, part)?;
    }
    Ok(setup)
}
