//! The expected idents of a session.
ghost use Rattle.std.specs.Prelude.{◌≡◌, ◌⊎◌, ◌<◌, ℕ, List, Err, IfOk, IfSome};
ghost use Rattle.indexmap.specs.IndexMap.{get_by_text};
ghost use Rattle.ecu_mem.specs.Bounds.{IsIdent};
ghost use Rattle.flash_base.specs.Lists.{Each};
ghost use Rattle.flash_plan.specs.Accepting.{IsAsked};
ghost use Rattle.plan_build.specs.Tasks.{all_wanted, did_of, wanted_of};

use crate::copies::copy_of_values;
use crate::fault::{BuildFault, Cause};
use crate::refusals::input;
use ecu_mem::Ident;
use flash_base::{Items, NoMemory, Text};
use flash_order::Task;
use flash_plan::Wanted;
use indexmap::IndexMap;
use std::alloc::Global;

/// The identifiers that a task gives, by name.
fn table_of(alloc: Global, dids: &[(Text, u16)]) -> Result<IndexMap<String, u16>, NoMemory>
    ensures { IfOk result (λ table. (name : List ℕ) → get_by_text table name ≡ did_of dids.now name) }
{
    let mut table = IndexMap::new(alloc);
    let mut left = dids.len();
    while 0 < left {
        left -= 1;
        let pair = &dids[left];
        let key = String::from_str(alloc, pair.0.as_str())?;
        table.insert(key, pair.1)?;
    }
    Ok(table)
}

/// The identifier of an ident's name.
fn did_in(table: &IndexMap<String, u16>, name: &Text) -> Option<u16>
    ensures is { result ≡ get_by_text table.now name.now }
    ensures small { IfSome result (λ did. did < 65536) }
{
    table.get(name.as_str()).copied()
}

/// The refusal of an ident without an identifier.
fn no_did(alloc: Global, name: &str, task: &Task, ident: &Ident) -> Result<Cause, NoMemory>
    ensures { IfOk result (λ cause. cause ≡ Cause.NoDid task.now.name ident.now.name) }
{
    let task = Text::from_str(alloc, task.name.as_str())?;
    let name = Text::from_str(alloc, ident.name.as_str())?;
    Ok(Cause::NoDid { task, name })
}

/// One expected ident with its identifier.
fn wanted_of(
    alloc: Global,
    name: &str,
    task: &Task,
    ident: &Ident,
    did: Option<u16>,
) -> Result<Wanted, BuildFault>
    requires values { IsIdent ident.now }
    requires small { IfSome did (λ did. did < 65536) }
    ensures is { (result ≡ Err BuildFault.NoMemory) ⊎ (result ≡ wanted_of name.now task.now ident.now did) }
    ensures asked { IfOk result IsAsked }
{
    match did {
        Some(did) => {
            let values = copy_of_values(alloc, ident.values.as_slice())?;
            Ok(Wanted { did, values })
        }
        None => {
            let cause = no_did(alloc, name, task, ident)?;
            Err(input(alloc, name, cause))
        }
    }
}

/// All expected idents of a session, in order.
pub(crate) fn all_wanted(
    alloc: Global,
    name: &str,
    task: &Task,
    dids: &[(Text, u16)],
    idents: &[Ident],
) -> Result<Items<Wanted>, BuildFault>
    requires { Each IsIdent idents.now }
    ensures is { (result ≡ Err BuildFault.NoMemory)
        ⊎ (result ≡ all_wanted name.now task.now dids.now idents.now) }
    ensures asked { IfOk result (Each IsAsked) }
{
    let table = table_of(alloc, dids)?;
    let mut all = Items::new(alloc);
    for ident in idents {
        let did = did_in(&table, &ident.name);
        let wanted = wanted_of(alloc, name, task, ident, did)?;
        all.push(wanted)?;
    }
    Ok(all)
}
