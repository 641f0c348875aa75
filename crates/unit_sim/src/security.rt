//! SecurityAccess: seeds and keys.

ghost use Rattle.std.specs.Prelude.{◌≡◌, ◌<◌, ◌≤◌, ◌++◌, length, take, IfOk, IsTrue};
ghost use Rattle.sha2.specs.Sha256.{sha256};
ghost use Rattle.flash_base.specs.Lists.{same_bytes};
ghost use Rattle.uds_codec.specs.Key.{key_of, xor_from};
ghost use Rattle.uds_codec.specs.declared.request.Request.{Request};
ghost use Rattle.unit_model.specs.Rules.{is_rule};
ghost use Rattle.unit_model.specs.Running.{control_unit};
ghost use Rattle.unit_model.specs.Unit.{obey, has_level, is_locked, seed_given};
ghost use Rattle.unit_sim.specs.Changes.{stepped, MayChange};

use crate::change::{Change, Step, refuse};
use flash_base::{Bytes, KeyRule, NoMemory};
use sha2::{Digest, Sha256};
use std::alloc::Global;
use uds_codec::code::{
    INVALID_KEY, REQUEST_SEQUENCE_ERROR, SERVICE_NOT_SUPPORTED_IN_ACTIVE_SESSION,
    SUB_FUNCTION_NOT_SUPPORTED,
};
use uds_codec::service::{POSITIVE_RESPONSE, SECURITY_ACCESS};
use unit_model::Unit;

/// Whether a key is asked for and none was taken.
pub(crate) fn is_locked(unit: &Unit) -> bool
    ensures { result ≡ is_locked (control_unit unit.now) }
{
    match &unit.key {
        KeyRule::Free => false,
        KeyRule::Xor { .. } => !unit.unlocked,
        KeyRule::Digest { .. } => !unit.unlocked,
    }
}

fn has_level(rule: &KeyRule, asked: u8) -> bool
    ensures { result ≡ has_level rule.now asked }
{
    match rule {
        KeyRule::Free => false,
        KeyRule::Xor { level, .. } => asked == *level,
        KeyRule::Digest { level, .. } => asked == *level,
    }
}

/// The seed that the unit gives: as many zeros where it is unlocked.
fn given(alloc: Global, unit: &Unit) -> Result<Bytes, NoMemory>
    ensures { IfOk result (λ b. b ≡ seed_given (control_unit unit.now)) }
{
    if !unit.unlocked {
        return Bytes::from_slice(alloc, unit.seed.as_slice());
    }
    let mut zeros = Vec::new(alloc);
    zeros.resize(unit.seed.len(), 0)?;
    Ok(Bytes::from_vec(zeros))
}

/// A seed of this level.
pub(crate) fn seed<'a>(alloc: Global, unit: &Unit, level: u8) -> Result<Step<'a>, NoMemory>
    ensures is { IfOk result (λ s. stepped s (control_unit unit.now) ≡ obey (control_unit unit.now)
        (Request.Seed level)) }
    ensures may { IfOk result (λ s. MayChange s.change unit.now) }
{
    if unit.session != 2 {
        return refuse(
            alloc,
            SECURITY_ACCESS,
            SERVICE_NOT_SUPPORTED_IN_ACTIVE_SESSION,
        );
    }
    if !has_level(&unit.key, level) {
        return refuse(alloc, SECURITY_ACCESS, SUB_FUNCTION_NOT_SUPPORTED);
    }
    let seed = given(alloc, unit)?;
    let mut answer = Vec::with_capacity(alloc, 2 + seed.len())?;
    answer.extend_from_slice(&[SECURITY_ACCESS + POSITIVE_RESPONSE, level])?;
    answer.extend_from_slice(seed.as_slice())?;
    Ok(Step {
        change: Change::Seeded { seed },
        answer: Bytes::from_vec(answer),
    })
}

/// Each byte of the seed with the mask's byte of its place, the mask said again and again.
fn masked(alloc: Global, mask: &[u8], seed: &[u8]) -> Result<Bytes, NoMemory>
    requires { 1 ≤ length mask.now }
    ensures { IfOk result (λ key. key ≡ xor_from mask.now 0 seed.now) }
{
    let mut key = Vec::with_capacity(alloc, seed.len())?;
    for (i, byte) in seed.iter().enumerate() {
        key.push(*byte ^ mask[i % mask.len()])?;
    }
    Ok(Bytes::from_vec(key))
}

/// The first bytes of the digest of a secret followed by a seed.
fn digested(alloc: Global, secret: &[u8], seed: &[u8], size: usize) -> Result<Bytes, NoMemory>
    requires { size ≤ 32 }
    ensures { IfOk result (λ key. key ≡ take size (sha256 (secret.now ++ seed.now))) }
{
    let mut hasher = Sha256::new();
    hasher.update(secret);
    hasher.update(seed);
    let digest = hasher.finalize();
    Bytes::from_slice(alloc, &digest[..size])
}

/// The key that a unit with this rule wants for its seed.
fn wanted(alloc: Global, rule: &KeyRule, seed: &[u8]) -> Result<Bytes, NoMemory>
    requires { IsTrue (is_rule rule.now) }
    ensures { IfOk result (λ key. key ≡ key_of rule.now seed.now) }
{
    match rule {
        KeyRule::Free => Ok(Bytes::new(alloc)),
        KeyRule::Xor { mask, .. } => masked(alloc, mask.as_slice(), seed),
        KeyRule::Digest { length, secret, .. } => {
            digested(alloc, secret.as_slice(), seed, usize::from(*length))
        }
    }
}

/// Whether two lists of bytes are the same.
pub(crate) fn same(a: &[u8], b: &[u8]) -> bool
    ensures { result ≡ same_bytes a.now b.now }
{
    a == b
}

/// A key for the seed that was given last.
pub(crate) fn key<'a>(
    alloc: Global,
    unit: &Unit,
    level: u8,
    key: &[u8],
) -> Result<Step<'a>, NoMemory>
    requires { level < 255 }
    ensures is { IfOk result (λ s. stepped s (control_unit unit.now) ≡ obey (control_unit unit.now)
        (Request.Key level key.now)) }
    ensures may { IfOk result (λ s. MayChange s.change unit.now) }
{
    if unit.session != 2 {
        return refuse(
            alloc,
            SECURITY_ACCESS,
            SERVICE_NOT_SUPPORTED_IN_ACTIVE_SESSION,
        );
    }
    if !has_level(&unit.key, level) {
        return refuse(alloc, SECURITY_ACCESS, SUB_FUNCTION_NOT_SUPPORTED);
    }
    let Some(seed) = &unit.last_seed else {
        return refuse(alloc, SECURITY_ACCESS, REQUEST_SEQUENCE_ERROR);
    };
    let wanted = wanted(alloc, &unit.key, seed.as_slice())?;
    if !same(key, wanted.as_slice()) {
        return refuse(alloc, SECURITY_ACCESS, INVALID_KEY);
    }
    let answer = Bytes::from_slice(alloc, &[SECURITY_ACCESS + POSITIVE_RESPONSE, level + 1])?;
    Ok(Step {
        change: Change::Unlocked,
        answer,
    })
}
