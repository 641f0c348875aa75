ghost use Rattle.std.specs.Prelude.{◌≡◌, ◌≤◌, ◌++◌, length, take, IfOk};
ghost use Rattle.sha2.specs.Sha256.{sha256};
ghost use Rattle.flash_plan.specs.Plan.{IsKeyRule};
ghost use Rattle.uds_codec.specs.Key.{all_zero, key_of, level_of, xor_from};
ghost use Rattle.unit_session.specs.Session.{seed_bytes, level_or_none};

use crate::stage::KeptSeed;
use flash_base::{Bytes, KeyRule, NoMemory};
use sha2::{Digest, Sha256};
use std::alloc::Global;

/// Whether each byte is zero.
pub fn is_zero(bytes: &[u8]) -> bool
    ensures { result ≡ all_zero bytes.now }
{
    for b in bytes {
        if *b != 0 {
            return false;
        }
    }
    true
}

/// The seed, copied into its fixed place.
pub fn kept(seed: &[u8]) -> KeptSeed
    requires { length seed.now ≤ 32 }
    ensures bytes { seed_bytes result ≡ seed.now }
    ensures size { result.size ≤ 32 }
{
    let mut bytes = [0u8; 32];
    bytes[..seed.len()].copy_from_slice(seed);
    KeptSeed {
        bytes,
        size: seed.len() as u8,
    }
}

/// The security level of the unit's key rule.
pub fn level(rule: &KeyRule) -> u8
    ensures { result ≡ level_or_none (level_of rule.now) }
{
    match rule {
        KeyRule::Free => 0,
        KeyRule::Xor { level, .. } => *level,
        KeyRule::Digest { level, .. } => *level,
    }
}

/// Each byte of the seed with the mask's byte of its place, the mask said again and again.
fn masked(alloc: Global, mask: &[u8], seed: &[u8]) -> Result<Bytes, NoMemory>
    requires { 1 ≤ length mask.now }
    ensures { IfOk result (λ key. key ≡ xor_from mask.now 0 seed.now) }
{
    let mut key = Vec::with_capacity(alloc, seed.len())?;
    for (i, byte) in seed.iter().enumerate() {
        key.push(*byte ^ mask[i % mask.len()])?;
    }
    Ok(Bytes::from_vec(key))
}

/// The first bytes of the digest of a secret followed by a seed.
fn digested(alloc: Global, secret: &[u8], seed: &[u8], size: usize) -> Result<Bytes, NoMemory>
    requires { size ≤ 32 }
    ensures { IfOk result (λ key. key ≡ take size (sha256 (secret.now ++ seed.now))) }
{
    let mut hasher = Sha256::new();
    hasher.update(secret);
    hasher.update(seed);
    let digest = hasher.finalize();
    Bytes::from_slice(alloc, &digest[..size])
}

/// The key that a unit with this rule wants for its seed.
pub fn key(alloc: Global, rule: &KeyRule, seed: &[u8]) -> Result<Bytes, NoMemory>
    requires { IsKeyRule rule.now }
    ensures { IfOk result (λ key. key ≡ key_of rule.now seed.now) }
{
    match rule {
        KeyRule::Free => Ok(Bytes::new(alloc)),
        KeyRule::Xor { mask, .. } => masked(alloc, mask.as_slice(), seed),
        KeyRule::Digest { length, secret, .. } => {
            digested(alloc, secret.as_slice(), seed, usize::from(*length))
        }
    }
}
