//! Copies of what an order and a catalogue keep for themselves.
ghost use Rattle.std.specs.Prelude.{◌≡◌, IfOk};

use flash_base::{Bytes, Items, KeyRule, Names, NoMemory, Text};
use flash_plan::Wanted;
use std::alloc::Global;

pub(crate) fn copy_of_key(alloc: Global, key: &KeyRule) -> Result<KeyRule, NoMemory>
    ensures { IfOk result (λ copy. copy ≡ key.now) }
{
    match key {
        KeyRule::Free => Ok(KeyRule::Free),
        KeyRule::Xor { level, mask } => {
            let mask = Bytes::from_slice(alloc, mask.as_slice())?;
            Ok(KeyRule::Xor {
                level: *level,
                mask,
            })
        }
        KeyRule::Digest {
            level,
            length,
            secret,
        } => {
            let secret = Bytes::from_slice(alloc, secret.as_slice())?;
            Ok(KeyRule::Digest {
                level: *level,
                length: *length,
                secret,
            })
        }
    }
}

pub(crate) fn copy_of_names(alloc: Global, names: &Names) -> Result<Names, NoMemory>
    ensures { IfOk result (λ copy. copy ≡ names.now) }
{
    let mut copy = Names::new(alloc);
    for i in 0..names.len() {
        copy.push(Text::from_str(alloc, names.at(i).as_str())?)?;
    }
    Ok(copy)
}

pub(crate) fn copy_of_values(alloc: Global, values: &[Bytes]) -> Result<Items<Bytes>, NoMemory>
    ensures { IfOk result (λ copy. copy ≡ values.now) }
{
    let mut copy = Items::new(alloc);
    for value in values {
        copy.push(Bytes::from_slice(alloc, value.as_slice())?)?;
    }
    Ok(copy)
}

fn copy_of_wanted(alloc: Global, wanted: &Wanted) -> Result<Wanted, NoMemory>
    ensures { IfOk result (λ copy. copy ≡ wanted.now) }
{
    let values = copy_of_values(alloc, wanted.values.as_slice())?;
    Ok(Wanted {
        did: wanted.did,
        values,
    })
}

pub(crate) fn copy_of_idents(alloc: Global, idents: &[Wanted]) -> Result<Items<Wanted>, NoMemory>
    ensures { IfOk result (λ copy. copy ≡ idents.now) }
{
    let mut copy = Items::new(alloc);
    for wanted in idents {
        copy.push(copy_of_wanted(alloc, wanted)?)?;
    }
    Ok(copy)
}
