//! How much a drill's number makes.
ghost use Rattle.std.specs.Prelude.{◌≡◌, ◌≤◌};
ghost use Rattle.bench_gen.specs.Sizes.{all_blocks_of, all_bytes_of, bytes_of, rows_of, units_of};

/// The greatest number of a drill.
pub const GREATEST: u32 = 999_999;

/// How many units there are: 2 to 12.
pub fn units(n: u32) -> u16
    requires { n ≤ 999999 }
    ensures is { result ≡ units_of n }
    ensures some { 2 ≤ result }
    ensures few { result ≤ 12 }
{
    (2 + n % 11) as u16
}

/// How many rows of 256 bytes one unit is given: 16 to 4,096.
pub(crate) fn rows(n: u32) -> u32
    requires { n ≤ 999999 }
    ensures is { result ≡ rows_of n }
    ensures few { result ≤ 4096 }
{
    16 * (1 + n / 11 % 256)
}

/// How many bytes one unit is given: 4,096 to 1,048,576, in steps of 4,096.
pub(crate) fn size(n: u32) -> u32
    requires { n ≤ 999999 }
    ensures is { result ≡ bytes_of n }
    ensures few { result ≤ 1048576 }
{
    4096 * (1 + n / 11 % 256)
}

/// How many bytes all units are given.
pub fn bytes(n: u32) -> u64
    requires { n ≤ 999999 }
    ensures { result ≡ all_bytes_of n }
{
    units(n) as u64 * size(n) as u64
}

/// In how many blocks of at most 4,093 bytes all units are given them.
pub fn blocks(n: u32) -> u64
    requires { n ≤ 999999 }
    ensures { result ≡ all_blocks_of n }
{
    units(n) as u64 * ((size(n) as u64 + 4092) / 4093)
}
