ghost use Rattle.std.specs.Prelude.{◌≡◌, ℕ, ◌≤◌, ◌<◌, length};
ghost use Rattle.flash_base.specs.Numbers.{big_endian, number_of, pow256};

/// The `N` bytes of a number, the greatest first; `N` is 1 to 5.
pub fn put_number<const N: usize>(value: u64) -> [u8; N]
    requires some { 1 ≤ N }
    requires few { N ≤ 5 }
    requires fits { value < pow256 N }
    ensures { result ≡ big_endian N value }
{
    let mut bytes = [0u8; N];
    let mut rest = value;
    let mut i = N;
    while i > 0 {
        i -= 1;
        bytes[i] = (rest % 256) as u8;
        rest /= 256;
    }
    bytes
}

/// The number that at most eight bytes are, the greatest first.
pub(crate) fn number(bytes: &[u8]) -> u64
    requires { length bytes.now ≤ 8 }
    ensures { result ≡ number_of bytes.now }
{
    let mut n = 0u64;
    for i in 0..bytes.len() {
        n = n * 256 + u64::from(bytes[i]);
    }
    n
}

/// The number that `N` bytes are, the greatest first; `N` is 1 to 5.
pub fn get_number<const N: usize>(bytes: &[u8; N]) -> u64
    requires some { 1 ≤ N }
    requires few { N ≤ 5 }
    ensures { result ≡ number_of bytes.now }
{
    number(bytes)
}
