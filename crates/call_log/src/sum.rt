ghost use Rattle.std.specs.Prelude.{◌≡◌, ◌/◌, ◌%◌, ◌<◌};
ghost use Rattle.call_log.specs.Log.{mixed, four};

/// The factor between two bytes.
const FACTOR: u64 = 16_777_619;

/// The checksum that these bytes make of one: for each byte it is multiplied by 16,777,619, the byte is added, and
/// the rest modulo 2^32 is kept.
pub(crate) fn mixed(sum: u32, bytes: &[u8]) -> u32
    ensures { result ≡ mixed sum bytes.now }
{
    let mut mix = sum;
    for b in bytes {
        mix = ((u64::from(mix) * FACTOR + u64::from(*b)) % 0x1_0000_0000) as u32;
    }
    mix
}

/// The bytes of a number of four bytes, its greatest byte first.
pub(crate) fn four(n: u32) -> [u8; 4]
    ensures { result ≡ four n }
{
    [
        (n / 0x100_0000) as u8,
        (n / 0x1_0000 % 0x100) as u8,
        (n / 0x100 % 0x100) as u8,
        (n % 0x100) as u8,
    ]
}
