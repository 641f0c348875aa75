ghost use Rattle.std.specs.Prelude.{◌≡◌, IfOk};
ghost use Rattle.ecu_mem.specs.Elements.{at_least_one, values_in, one_value_in, ident_in, check_of, check_in};
ghost use Rattle.ecu_mem.specs.Refusals.{read_as};

use crate::parts::{Reader, choice, each, optional, required};
use crate::refusal::{Reading, both, missing};
use crate::types::{Check, Ident};
use crate::values::{HexBytes, IdentValue, SegmentRange, TrimmedText, TwoDigits};
use flash_base::{Bytes, Items, NoMemory, Text};
use odx_tree::Element;
use std::alloc::Global;

fn at_least_one(alloc: Global, values: Items<Bytes>) -> Result<Reading<Items<Bytes>>, NoMemory>
    ensures { IfOk result (λ r. r ≡ at_least_one values) }
{
    if values.as_slice().is_empty() {
        return Ok(Err(missing(alloc, "IDENT-VALUE")?));
    }
    Ok(Ok(values))
}

/// An IDENT-VALUES.
struct Values;

impl Reader for Values {
    type Value = Items<Bytes>;

    ghost reading = { λ _ e. values_in e };

    fn read(&self, alloc: Global, element: &Element) -> Result<Reading<Items<Bytes>>, NoMemory> {
        match each(alloc, element, "IDENT-VALUE", &IdentValue)? {
            Ok(values) => at_least_one(alloc, values),
            Err(refusal) => Ok(Err(refusal)),
        }
    }
}

/// An IDENT-VALUE that stands directly.
struct OneValue;

impl Reader for OneValue {
    type Value = Items<Bytes>;

    ghost reading = { λ _ e. one_value_in e };

    fn read(&self, alloc: Global, element: &Element) -> Result<Reading<Items<Bytes>>, NoMemory> {
        match IdentValue.read(alloc, element)? {
            Ok(value) => {
                let mut values = Items::new(alloc);
                values.push(value)?;
                Ok(Ok(values))
            }
            Err(refusal) => Ok(Err(refusal)),
        }
    }
}

/// An EXPECTED-IDENT or an OWN-IDENT.
pub(crate) struct IdentPart;

impl Reader for IdentPart {
    type Value = Ident;

    ghost reading = { λ _ e. ident_in e };

    fn read(&self, alloc: Global, element: &Element) -> Result<Reading<Ident>, NoMemory> {
        let name = required(alloc, element, "SHORT-NAME", &TrimmedText)?;
        let values = choice(
            alloc,
            element,
            "IDENT-VALUES",
            &Values,
            "IDENT-VALUE",
            &OneValue,
        )?;
        match both(name, values) {
            Ok((name, values)) => Ok(Ok(Ident { name, values })),
            Err(refusal) => Ok(Err(refusal)),
        }
    }
}

type CheckParts = (Text, (Option<u8>, ((u64, u64), (Text, Bytes))));

fn check_of(parts: Reading<CheckParts>) -> Reading<Check>
    ensures { result ≡ read_as check_of parts }
{
    let (name, parts) = parts?;
    let (fill, parts) = parts;
    let (range, parts) = parts;
    let (from, size) = range;
    let (alg, result) = parts;
    Ok(Check {
        name,
        from,
        size,
        fill,
        alg,
        result,
    })
}

/// A CHECKSUM.
pub(crate) struct ChecksumPart;

impl Reader for ChecksumPart {
    type Value = Check;

    ghost reading = { λ _ e. check_in e };

    fn read(&self, alloc: Global, element: &Element) -> Result<Reading<Check>, NoMemory> {
        let name = required(alloc, element, "SHORT-NAME", &TrimmedText)?;
        let fill = optional(alloc, element, "FILLBYTE", &TwoDigits)?;
        let range = SegmentRange.read(alloc, element)?;
        let alg = required(alloc, element, "CHECKSUM-ALG", &TrimmedText)?;
        let bytes = required(alloc, element, "CHECKSUM-RESULT", &HexBytes)?;
        Ok(check_of(both(name, both(fill, both(range, both(alg, bytes))))))
    }
}
