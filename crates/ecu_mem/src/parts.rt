ghost use Rattle.std.specs.Prelude.{◌≡◌, IfOk, Some, None, option_map};
ghost use Rattle.flash_base.specs.Files.{first_of};
ghost use Rattle.odx_tree.specs.declared.element.Element.{out-Element};
ghost use Rattle.ecu_mem.specs.Parts.{kid, kid_of_two, required_of, required, optional, choice, each_from, each, listed, attribute, attribute_in};

use crate::refusal::{Reading, in_kid, missing};
use flash_base::{Items, NoMemory, Text};
use odx_tree::Element;
use std::alloc::Global;

/// A way to read an element.
pub(crate) trait Reader {
    ghost use Rattle.std.specs.Prelude.{Result};
    ghost use Rattle.odx_tree.specs.declared.element.Element.{Element};
    ghost use Rattle.ecu_mem.specs.declared.refusal.Refusal.{Refusal};

    type Value: Drop;

    ghost reading: { Self → Element → Result Self.Value Refusal };

    fn read(&self, alloc: Global, element: &Element) -> Result<Reading<Self::Value>, NoMemory>
        ensures { IfOk result (λ r. r ≡ reading self.now element.now) };
}

/// A kid and its position.
pub(crate) type Found<'a> = Option<(usize, &'a Element)>;

/// The first kid with a tag.
pub(crate) fn kid<'a>(element: &'a Element, tag: &str) -> Found<'a>
    ensures { option_map (λ p. (p.0, p.1.now)) result ≡ kid tag.now element.now }
{
    for (i, kid) in element.kids.as_slice().iter().enumerate() {
        if kid.tag.is(tag) {
            return Some((i, kid));
        }
    }
    None
}

/// The first kid with either of two tags.
pub(crate) fn kid_of_two<'a>(element: &'a Element, tag: &str, other: &str) -> Found<'a>
    ensures { option_map (λ p. (p.0, p.1.now)) result ≡ kid_of_two tag.now other.now element.now }
{
    for (i, kid) in element.kids.as_slice().iter().enumerate() {
        if kid.tag.is(tag) || kid.tag.is(other) {
            return Some((i, kid));
        }
    }
    None
}

/// A part that has to be there, where it was found.
pub(crate) fn required_at<R: Reader>(
    alloc: Global,
    found: Found<'_>,
    tag: &str,
    reader: &R,
) -> Result<Reading<R::Value>, NoMemory>
    ensures { IfOk result (λ r. r ≡ required_of tag.now (R.reading reader.now)
        (option_map (λ p. (p.0, p.1.now)) found.entry)) }
{
    match found {
        None => Ok(Err(missing(alloc, tag)?)),
        Some((i, found)) => in_kid(i, reader.read(alloc, found)?),
    }
}

/// A part that has to be there.
pub(crate) fn required<R: Reader>(
    alloc: Global,
    element: &Element,
    tag: &str,
    reader: &R,
) -> Result<Reading<R::Value>, NoMemory>
    ensures { IfOk result (λ r. r ≡ required tag.now (R.reading reader.now) element.now) }
{
    required_at(alloc, kid(element, tag), tag, reader)
}

/// A part that may be absent.
pub(crate) fn optional<R: Reader>(
    alloc: Global,
    element: &Element,
    tag: &str,
    reader: &R,
) -> Result<Reading<Option<R::Value>>, NoMemory>
    ensures { IfOk result (λ r. r ≡ optional tag.now (R.reading reader.now) element.now) }
{
    match kid(element, tag) {
        None => Ok(Ok(None)),
        Some((i, found)) => match in_kid(i, reader.read(alloc, found)?)? {
            Ok(value) => Ok(Ok(Some(value))),
            Err(refusal) => Ok(Err(refusal)),
        },
    }
}

/// One of two parts, of which the first named counts.
pub(crate) fn choice<R: Reader, S: Reader<Value = R::Value>>(
    alloc: Global,
    element: &Element,
    tag: &str,
    reader: &R,
    other: &str,
    other_reader: &S,
) -> Result<Reading<R::Value>, NoMemory>
    ensures { IfOk result (λ r. r ≡ choice tag.now (R.reading reader.now) other.now
        (S.reading other_reader.now) element.now) }
{
    if let Some((i, found)) = kid(element, tag) {
        return in_kid(i, reader.read(alloc, found)?);
    }
    match kid(element, other) {
        None => Ok(Err(missing(alloc, tag)?)),
        Some((i, found)) => in_kid(i, other_reader.read(alloc, found)?),
    }
}

/// All kids with a tag, in order.
pub(crate) fn each<R: Reader>(
    alloc: Global,
    element: &Element,
    tag: &str,
    reader: &R,
) -> Result<Reading<Items<R::Value>>, NoMemory>
    ensures { IfOk result (λ r. r ≡ each tag.now (R.reading reader.now) element.now) }
{
    let mut found = Items::new(alloc);
    for (i, part) in element.kids.as_slice().iter().enumerate() {
        if part.tag.is(tag) {
            match in_kid(i, reader.read(alloc, part)?)? {
                Ok(value) => found.push(value)?,
                Err(refusal) => return Ok(Err(refusal)),
            }
        }
    }
    Ok(Ok(found))
}

/// All kids with a tag of a part that may be absent.
pub(crate) fn listed<R: Reader>(
    alloc: Global,
    element: &Element,
    holder: &str,
    tag: &str,
    reader: &R,
) -> Result<Reading<Items<R::Value>>, NoMemory>
    ensures { IfOk result (λ r. r ≡ listed holder.now tag.now (R.reading reader.now) element.now) }
{
    match kid(element, holder) {
        None => Ok(Ok(Items::new(alloc))),
        Some((i, found)) => in_kid(i, each(alloc, found, tag, reader)?),
    }
}

/// The text of an attribute.
pub(crate) fn attribute<'a>(element: &'a Element, name: &str) -> Option<&'a Text>
    ensures { option_map (λ t. t.now) result ≡ attribute name.now element.now }
{
    for pair in element.attrs.as_slice() {
        if pair.0.is(name) {
            return Some(&pair.1);
        }
    }
    None
}

/// An attribute that has to be there.
pub(crate) fn attribute_in(
    alloc: Global,
    element: &Element,
    name: &str,
) -> Result<Reading<Text>, NoMemory>
    ensures { IfOk result (λ r. r ≡ attribute_in name.now element.now) }
{
    match attribute(element, name) {
        None => Ok(Err(missing(alloc, name)?)),
        Some(text) => Ok(Ok(Text::from_str(alloc, text.as_str())?)),
    }
}
