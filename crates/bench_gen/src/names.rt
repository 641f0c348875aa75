//! What the units and their parts are called.
ghost use Rattle.std.specs.Prelude.{◌≡◌, ◌<◌, ◌+◌, ◌∷◌, [], ◌++◌, IfOk, codes, string_bytes};
ghost use Rattle.bench_gen.specs.Catalogue.{hex_name};
ghost use Rattle.bench_gen.specs.Order.{address_text};
ghost use Rattle.bench_gen.specs.Sizes.{numbered};

use flash_base::NoMemory;
use std::alloc::Global;

/// A digit.
fn digit(d: u16) -> &'static str
    requires { d < 10 }
    ensures { result.now ≡ (48 + d) ∷ [] }
{
    match d {
        0 => "0",
        1 => "1",
        2 => "2",
        3 => "3",
        4 => "4",
        5 => "5",
        6 => "6",
        7 => "7",
        8 => "8",
        _ => "9",
    }
}

/// A letter and a number below 100 in two digits.
pub fn numbered(alloc: Global, letter: &str, k: u16) -> Result<String, NoMemory>
    requires { k < 100 }
    ensures { IfOk result (λ name. string_bytes name ≡ numbered letter.now k) }
{
    let mut name = String::from_str(alloc, letter)?;
    name.push_str(digit(k / 10))?;
    name.push_str(digit(k % 10))?;
    Ok(name)
}

/// The name of the file of unit `k`.
pub fn hex_name(alloc: Global, k: u16) -> Result<String, NoMemory>
    requires { k < 100 }
    ensures { IfOk result (λ name. string_bytes name ≡ hex_name k) }
{
    let mut name = numbered(alloc, "u", k)?;
    name.push_str(".hex")?;
    Ok(name)
}

/// The address of unit `k`: 1000 and its number, in four hexadecimal digits.
pub fn address(alloc: Global, k: u16) -> Result<String, NoMemory>
    requires { k < 256 }
    ensures { IfOk result (λ text. string_bytes text ≡ address_text k) }
{
    Ok(hex::encode_upper(alloc, &[0x10, k as u8][..])?)
}
