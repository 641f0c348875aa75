//! Objects and lists, each item written alike.

ghost use Rattle.std.specs.Prelude.{◌≡◌, OnOk, Some, map};
ghost use Rattle.flash_base.specs.Lists.{Each};
ghost use Rattle.vehicle_text.specs.Objects.{object_in, put_some, put_value, put_values};
ghost use Rattle.vehicle_text.specs.Units.{data_in, list_data, list_given};

use crate::out::Out;
use flash_base::NoMemory;
use std::alloc::Global;

/// A way to write the members of an object.
pub(crate) trait Form {
    ghost use Rattle.std.specs.Prelude.{◌≡◌, OnOk};
    ghost use Rattle.vehicle_text.specs.Objects.{Fields, put_all};

    type Item;

    ghost fields: { Self.Item → Fields };

    ghost fits: { Self.Item → Type 0 };

    fn write(&self, alloc: Global, out: &mut Out, item: &Self::Item) -> Result<(), NoMemory>
        ensures is { OnOk result (out.new ≡ put_all (fields item.now) out.old) }
        ensures fits { OnOk result (fits item.now) };
}

/// Writes an object.
pub(crate) fn object<F: Form>(
    alloc: Global,
    out: &mut Out,
    item: &F::Item,
    form: &F,
) -> Result<(), NoMemory>
    ensures is { OnOk result (out.new ≡ put_value (object_in (F.fields item.now)) out.old) }
    ensures fits { OnOk result (F.fits item.now) }
{
    out.begin_object()?;
    form.write(alloc, out, item)?;
    out.end_object()
}

/// Puts a member with an object.
pub(crate) fn put_object<F: Form>(
    alloc: Global,
    out: &mut Out,
    name: &str,
    item: &F::Item,
    form: &F,
) -> Result<(), NoMemory>
    ensures is { OnOk result (out.new ≡ put_some name.now (Some (object_in (F.fields item.now))) out.old) }
    ensures fits { OnOk result (F.fits item.now) }
{
    out.key(name)?;
    object(alloc, out, item, form)
}

/// Writes the items of a list.
fn put_items<F: Form>(
    alloc: Global,
    out: &mut Out,
    items: &[F::Item],
    form: &F,
) -> Result<(), NoMemory>
    ensures is { OnOk result (out.new ≡ put_values (map (data_in F.fields) items.now) out.old) }
    ensures fits { OnOk result (Each F.fits items.now) }
{
    for item in items {
        object(alloc, out, item, form)?;
    }
    Ok(())
}

/// Puts a member with a list.
pub(crate) fn put_list<F: Form>(
    alloc: Global,
    out: &mut Out,
    name: &str,
    items: &[F::Item],
    form: &F,
) -> Result<(), NoMemory>
    ensures is { OnOk result (out.new ≡ put_some name.now (Some (list_data (data_in F.fields) items.now)) out.old) }
    ensures fits { OnOk result (Each F.fits items.now) }
{
    out.key(name)?;
    out.begin_array()?;
    put_items(alloc, out, items, form)?;
    out.end_array()
}

/// Puts a member with a list that is not empty; an empty one is left out.
pub(crate) fn put_some_list<F: Form>(
    alloc: Global,
    out: &mut Out,
    name: &str,
    items: &[F::Item],
    form: &F,
) -> Result<(), NoMemory>
    ensures is { OnOk result (out.new ≡ put_some name.now (list_given (data_in F.fields) items.now) out.old) }
    ensures fits { OnOk result (Each F.fits items.now) }
{
    if items.is_empty() {
        return Ok(());
    }
    put_list(alloc, out, name, items, form)
}
