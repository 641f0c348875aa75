//! The order and the catalogue that it names.
ghost use Rattle.std.specs.Prelude.{◌≡◌, ◌⊎◌, ◌≤◌, Err, IfOk, IfSome};
ghost use Rattle.ecu_mem.specs.Bounds as mem;
ghost use Rattle.flash_order.specs.Promises.{IsOrder};
ghost use Rattle.plan_build.specs.Catalogues.{catalogue_in, catalogued, order_in, ordered};
ghost use Rattle.plan_build.specs.Fetched.{came, Period, LiesIn};

use crate::built::Catalogue;
use crate::fault::BuildFault;
use crate::fetching::fetch;
use crate::refusals::{mem_refusal, order_refusal, tree_refusal};
use flash_base::Text;
use flash_order::Order;
use flash_shelf::Shelf;
use std::alloc::Global;

/// The order that the bytes of a file are.
fn order_in(alloc: Global, name: &str, bytes: &[u8]) -> Result<Order, BuildFault>
    ensures is { (result ≡ Err BuildFault.NoMemory) ⊎ (result ≡ order_in name.now bytes.now) }
    ensures form { IfOk result IsOrder }
{
    match flash_order::read(alloc, bytes) {
        Ok(order) => Ok(order),
        Err(fault) => Err(order_refusal(alloc, name, fault)),
    }
}

/// The order of a file.
pub(crate) fn order_at<F: Shelf>(
    alloc: Global,
    shelf: &mut F,
    name: &str,
) -> Result<Order, BuildFault>
    ensures keeps { (F.history shelf.new).contents ≡ (F.history shelf.old).contents }
    ensures never_falls { (F.history shelf.old).faults ≤ (F.history shelf.new).faults }
    ensures read { (p : Period) → LiesIn p F.tells (F.history shelf.old) (F.history shelf.new)
        → (result ≡ Err BuildFault.NoMemory) ⊎ ordered (came p) name.now result }
    ensures form { IfOk result IsOrder }
{
    let bytes = fetch(alloc, shelf, name)?;
    order_in(alloc, name, bytes.as_slice())
}

/// The catalogue that the bytes of a file are.
fn catalogue_in(alloc: Global, name: &str, bytes: &[u8]) -> Result<Option<Catalogue>, BuildFault>
    ensures is { (result ≡ Err BuildFault.NoMemory) ⊎ (result ≡ catalogue_in name.now bytes.now) }
    ensures whole { IfOk result (λ o. IfSome o (λ c. mem.IsWholeCatalogue c.mem)) }
{
    let root = match odx_tree::read(alloc, bytes) {
        Ok(root) => root,
        Err(fault) => return Err(tree_refusal(alloc, name, fault)),
    };
    match ecu_mem::resolve(alloc, &root) {
        Ok(mem) => {
            let name = Text::from_str(alloc, name)?;
            Ok(Some(Catalogue { name, mem }))
        }
        Err(fault) => Err(mem_refusal(alloc, name, fault)),
    }
}

/// The catalogue of an order, where it names one.
pub(crate) fn catalogue_at<F: Shelf>(
    alloc: Global,
    shelf: &mut F,
    name: &Option<Text>,
) -> Result<Option<Catalogue>, BuildFault>
    ensures keeps { (F.history shelf.new).contents ≡ (F.history shelf.old).contents }
    ensures never_falls { (F.history shelf.old).faults ≤ (F.history shelf.new).faults }
    ensures read { (p : Period) → LiesIn p F.tells (F.history shelf.old) (F.history shelf.new)
        → (result ≡ Err BuildFault.NoMemory) ⊎ catalogued (came p) name.now result }
    ensures whole { IfOk result (λ o. IfSome o (λ c. mem.IsWholeCatalogue c.mem)) }
{
    match name {
        None => Ok(None),
        Some(name) => {
            let bytes = fetch(alloc, shelf, name.as_str())?;
            catalogue_in(alloc, name.as_str(), bytes.as_slice())
        }
    }
}
