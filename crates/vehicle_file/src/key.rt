//! The key rule of a unit.

ghost use Rattle.std.specs.Prelude.{◌≡◌, ◌⊎◌, ◌&&◌, ◌%◌, ◌==◌, Err, nat_le};
ghost use Rattle.serde_json.specs.Find.{as_str};
ghost use Rattle.serde_json.specs.View.{view};
ghost use Rattle.text_forms.specs.Bytes.{byte_text};
ghost use Rattle.vehicle_file.specs.Fields.{◌>=>◌, only_if, whole};
ghost use Rattle.vehicle_file.specs.Keys.{digest, free, is_digest_member, is_free_member, is_xor_member, key_rule, level, rule_in, rule_members, rule_name, rule_of, xor};
ghost use Rattle.vehicle_file.specs.declared.fault.Refused.{Refused};

use crate::fault::Refused;
use crate::forms::{BytesTo, Whole};
use crate::reading::{Members, Reader, bad, needed, object_of, of_form};
use flash_base::KeyRule;
use serde_json::Value;
use std::alloc::Global;
use text_forms::hex_byte;

/// What a key rule is called.
#[derive(Clone, Copy, Debug)]
enum RuleName {
    Free,
    Xor,
    Digest,
}

fn level_of(value: &Value) -> Option<u8>
    ensures { result ≡ (as_str (view value.now) >=> byte_text
        >=> λ n. only_if (n % 2 == 1 && nat_le n 125) n) }
{
    let number = hex_byte(value.as_str()?)?;
    if number % 2 == 1 && number <= 125 {
        Some(number)
    } else {
        None
    }
}

/// The level of a request for a seed (ISO 14229-1, service 0x27).
struct Level;

impl Reader for Level {
    type Value = u8;

    ghost reading = { λ _ d. level d };

    fn read(&self, alloc: Global, value: &Value) -> Result<u8, Refused> {
        of_form(alloc, level_of(value))
    }
}

struct FreeMembers;

impl Members for FreeMembers {
    type Value = KeyRule;

    ghost has = { λ _ name. is_free_member name };

    ghost reading = { λ _ d. free d };

    fn is_member(&self, name: &str) -> bool {
        name == "rule"
    }

    fn read(&self, _alloc: Global, _value: &Value) -> Result<KeyRule, Refused> {
        Ok(KeyRule::Free)
    }
}

struct XorMembers;

impl Members for XorMembers {
    type Value = KeyRule;

    ghost has = { λ _ name. is_xor_member name };

    ghost reading = { λ _ d. xor d };

    fn is_member(&self, name: &str) -> bool {
        name == "rule" || name == "level" || name == "mask"
    }

    fn read(&self, alloc: Global, value: &Value) -> Result<KeyRule, Refused> {
        let level = needed(alloc, value, "level", &Level)?;
        let mask = needed(alloc, value, "mask", &BytesTo { most: 32 })?;
        Ok(KeyRule::Xor { level, mask })
    }
}

/// How many bytes of a digest are the key.
struct KeyLength;

impl Reader for KeyLength {
    type Value = u8;

    ghost reading = { λ _ d. whole 1 32 d };

    fn read(&self, alloc: Global, value: &Value) -> Result<u8, Refused> {
        let number = Whole { least: 1, most: 32 }.read(alloc, value)?;
        Ok(number as u8)
    }
}

struct DigestMembers;

impl Members for DigestMembers {
    type Value = KeyRule;

    ghost has = { λ _ name. is_digest_member name };

    ghost reading = { λ _ d. digest d };

    fn is_member(&self, name: &str) -> bool {
        name == "rule" || name == "level" || name == "length" || name == "secret"
    }

    fn read(&self, alloc: Global, value: &Value) -> Result<KeyRule, Refused> {
        let level = needed(alloc, value, "level", &Level)?;
        let length = needed(alloc, value, "length", &KeyLength)?;
        let secret = needed(alloc, value, "secret", &BytesTo { most: 64 })?;
        Ok(KeyRule::Digest {
            level,
            length,
            secret,
        })
    }
}

fn rule_in(text: &str) -> Option<RuleName>
    ensures { result ≡ rule_in text.now }
{
    if text == "none" {
        Some(RuleName::Free)
    } else if text == "xor" {
        Some(RuleName::Xor)
    } else if text == "digest" {
        Some(RuleName::Digest)
    } else {
        None
    }
}

fn rule_name_of(value: &Value) -> Option<RuleName>
    ensures { result ≡ (as_str (view value.now) >=> rule_in) }
{
    rule_in(value.as_str()?)
}

struct RuleNamed;

impl Reader for RuleNamed {
    type Value = RuleName;

    ghost reading = { λ _ d. rule_name d };

    fn read(&self, alloc: Global, value: &Value) -> Result<RuleName, Refused> {
        of_form(alloc, rule_name_of(value))
    }
}

fn rule_of(alloc: Global, name: RuleName, value: &Value) -> Result<KeyRule, Refused>
    ensures { (result ≡ Err Refused.NoMemory) ⊎ (result ≡ rule_of name (view value.now)) }
{
    match name {
        RuleName::Free => object_of(alloc, value, &FreeMembers),
        RuleName::Xor => object_of(alloc, value, &XorMembers),
        RuleName::Digest => object_of(alloc, value, &DigestMembers),
    }
}

fn rule_members(alloc: Global, value: &Value) -> Result<KeyRule, Refused>
    ensures { (result ≡ Err Refused.NoMemory) ⊎ (result ≡ rule_members (view value.now)) }
{
    let name = needed(alloc, value, "rule", &RuleNamed)?;
    rule_of(alloc, name, value)
}

/// The key rule.
pub(crate) struct Key;

impl Reader for Key {
    type Value = KeyRule;

    ghost reading = { λ _ d. key_rule d };

    fn read(&self, alloc: Global, value: &Value) -> Result<KeyRule, Refused> {
        if !value.is_object() {
            return Err(bad(alloc));
        }
        rule_members(alloc, value)
    }
}
