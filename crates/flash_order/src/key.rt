ghost use Rattle.std.specs.Prelude.{◌≡◌, ◌⊎◌, ◌≤◌, Err, Some, None, IfOk, IfSome, MatchOption, codes, length};
ghost use Rattle.serde_json.specs.View.{view};
ghost use Rattle.flash_base.specs.declared.unit.KeyRule.TheVariants.{Free};
ghost use Rattle.flash_order.specs.Fields.{chosen};
ghost use Rattle.flash_order.specs.Keys.{digest_rule, free_rule, key_length, key_rule, level, rule_named, some_bytes, xor_rule};
ghost use Rattle.flash_plan.specs.Plan.{IsKeyRule, IsLevel};

use crate::fault::FieldFault;
use crate::fields::{bad, one_byte_of, whole_of};
use crate::listed::has_count;
use flash_base::{Bytes, KeyRule, NoMemory};
use serde_json::Value;
use std::alloc::Global;
use text_forms::hex_bytes;

/// The level of a request for a seed (ISO 14229-1, service 0x27).
fn level_of(value: &Value) -> Option<u8>
    ensures is { result ≡ level (view value.now) }
    ensures form { IfSome result IsLevel }
{
    let number = one_byte_of(value.get("level")?)?;
    if number % 2 == 1 && number <= 125 {
        Some(number)
    } else {
        None
    }
}

fn bytes_of(alloc: Global, value: &Value, most: usize) -> Result<Option<Bytes>, NoMemory>
    ensures is { IfOk result (λ b. b ≡ some_bytes most (view value.now)) }
    ensures some { IfOk result (λ o. IfSome o (λ b. 1 ≤ length b)) }
    ensures few { IfOk result (λ o. IfSome o (λ b. length b ≤ most)) }
{
    let Some(text) = value.as_str() else {
        return Ok(None);
    };
    let Some(bytes) = hex_bytes(alloc, text)? else {
        return Ok(None);
    };
    let count = bytes.len();
    if count >= 1 && count <= most {
        Ok(Some(bytes))
    } else {
        Ok(None)
    }
}

fn key_length_of(value: &Value) -> Option<u8>
    ensures is { result ≡ key_length (view value.now) }
    ensures some { IfSome result (λ n. 1 ≤ n) }
    ensures few { IfSome result (λ n. n ≤ 32) }
{
    let number = whole_of(value.get("length")?)?;
    if number >= 1 && number <= 32 {
        Some(number as u8)
    } else {
        None
    }
}

fn xor_of(alloc: Global, value: &Value) -> Result<Option<KeyRule>, NoMemory>
    ensures is { IfOk result (λ k. k ≡ xor_rule (view value.now)) }
    ensures form { IfOk result (λ o. IfSome o IsKeyRule) }
{
    if !has_count(value, 3) {
        return Ok(None);
    }
    let Some(level) = level_of(value) else {
        return Ok(None);
    };
    let Some(found) = value.get("mask") else {
        return Ok(None);
    };
    match bytes_of(alloc, found, 32)? {
        Some(mask) => Ok(Some(KeyRule::Xor { level, mask })),
        None => Ok(None),
    }
}

fn digest_of(alloc: Global, value: &Value) -> Result<Option<KeyRule>, NoMemory>
    ensures is { IfOk result (λ k. k ≡ digest_rule (view value.now)) }
    ensures form { IfOk result (λ o. IfSome o IsKeyRule) }
{
    if !has_count(value, 4) {
        return Ok(None);
    }
    let Some(level) = level_of(value) else {
        return Ok(None);
    };
    let Some(length) = key_length_of(value) else {
        return Ok(None);
    };
    let Some(found) = value.get("secret") else {
        return Ok(None);
    };
    match bytes_of(alloc, found, 64)? {
        Some(secret) => Ok(Some(KeyRule::Digest {
            level,
            length,
            secret,
        })),
        None => Ok(None),
    }
}

fn free_of(value: &Value) -> Option<KeyRule>
    ensures is { result ≡ free_rule (view value.now) }
    ensures form { IfSome result IsKeyRule }
{
    if has_count(value, 1) {
        Some(KeyRule::Free)
    } else {
        None
    }
}

fn rule_of(alloc: Global, name: &str, value: &Value) -> Result<Option<KeyRule>, NoMemory>
    ensures is { IfOk result (λ k. k ≡ rule_named name.now (view value.now)) }
    ensures form { IfOk result (λ o. IfSome o IsKeyRule) }
{
    if name == "none" {
        return Ok(free_of(value));
    }
    if name == "xor" {
        return xor_of(alloc, value);
    }
    if name == "digest" {
        return digest_of(alloc, value);
    }
    Ok(None)
}

fn key_of(alloc: Global, value: &Value) -> Result<Option<KeyRule>, NoMemory>
    ensures is { IfOk result (λ k. k ≡ key_rule (view value.now)) }
    ensures form { IfOk result (λ o. IfSome o IsKeyRule) }
{
    let Some(found) = value.get("rule") else {
        return Ok(None);
    };
    match found.as_str() {
        Some(name) => rule_of(alloc, name, value),
        None => Ok(None),
    }
}

/// The key rule: none where nothing is said.
pub(crate) fn key_at(alloc: Global, value: &Value) -> Result<KeyRule, FieldFault>
    ensures is { (result ≡ Err FieldFault.NoMemory)
        ⊎ (result ≡ chosen (codes "key") Free key_rule (view value.now)) }
    ensures form { IfOk result IsKeyRule }
{
    let Some(found) = value.get("key") else {
        return Ok(KeyRule::Free);
    };
    match key_of(alloc, found)? {
        Some(rule) => Ok(rule),
        None => Err(bad(alloc, "key")),
    }
}
