//! The key rule of a unit.

ghost use Rattle.std.specs.Prelude.{◌≡◌, OnOk, codes};
ghost use Rattle.flash_base.specs.declared.unit.KeyRule.TheVariants.{Digest, Xor};
ghost use Rattle.vehicle_text.specs.Keys.{key_fields, key_given};
ghost use Rattle.vehicle_text.specs.Objects.{put_all, put_some};
ghost use Rattle.vehicle_text.specs.Ranges.{FitsKey};

use crate::forms::{put_bytes, put_two, put_whole, put_words};
use crate::lists::{Form, put_object};
use crate::out::Out;
use flash_base::{Bytes, KeyRule, NoMemory};
use std::alloc::Global;

fn put_xor(alloc: Global, out: &mut Out, level: u8, mask: &Bytes) -> Result<(), NoMemory>
    ensures is { OnOk result (out.new ≡ put_all (key_fields (Xor level mask.now)) out.old) }
    ensures fits { OnOk result (FitsKey (Xor level mask.now)) }
{
    put_words(out, "rule", "xor")?;
    put_two(alloc, out, "level", level)?;
    put_bytes(alloc, out, "mask", mask.as_slice())
}

fn put_digest(
    alloc: Global,
    out: &mut Out,
    level: u8,
    length: u8,
    secret: &Bytes,
) -> Result<(), NoMemory>
    ensures is { OnOk result (out.new ≡ put_all (key_fields (Digest level length secret.now)) out.old) }
    ensures fits { OnOk result (FitsKey (Digest level length secret.now)) }
{
    put_words(out, "rule", "digest")?;
    put_two(alloc, out, "level", level)?;
    put_whole(out, "length", u64::from(length))?;
    put_bytes(alloc, out, "secret", secret.as_slice())
}

struct KeyForm;

impl Form for KeyForm {
    type Item = KeyRule;

    ghost fields = { key_fields };

    ghost fits = { FitsKey };

    fn write(&self, alloc: Global, out: &mut Out, item: &KeyRule) -> Result<(), NoMemory> {
        match item {
            KeyRule::Free => put_words(out, "rule", "none"),
            KeyRule::Xor { level, mask } => put_xor(alloc, out, *level, mask),
            KeyRule::Digest {
                level,
                length,
                secret,
            } => put_digest(alloc, out, *level, *length, secret),
        }
    }
}

/// Puts the key rule, where there is one.
pub(crate) fn put_key(alloc: Global, out: &mut Out, rule: &KeyRule) -> Result<(), NoMemory>
    ensures is { OnOk result (out.new ≡ put_some (codes "key") (key_given rule.now) out.old) }
    ensures fits { OnOk result (FitsKey rule.now) }
{
    match rule {
        KeyRule::Free => Ok(()),
        KeyRule::Xor { .. } => put_object(alloc, out, "key", rule, &KeyForm),
        KeyRule::Digest { .. } => put_object(alloc, out, "key", rule, &KeyForm),
    }
}
