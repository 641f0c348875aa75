ghost use Rattle.std.specs.Prelude.{◌≡◌, ◌⊎◌, ◌<◌, Err, IfOk, IfErr, IfSome, bytes_eq, length};
ghost use Rattle.std.specs.List.{position_from};
ghost use Rattle.ecu_mem.specs.Bounds.{IsWholeCatalogue};
ghost use Rattle.ecu_mem.specs.Catalogue.{fault_of, catalogue};
ghost use Rattle.ecu_mem.specs.Truths.{IsTrueOf};

use crate::document::Document;
use crate::fault::MemFault;
use crate::linking::link;
use crate::refusal::{Refusal, Wrong};
use crate::types::EcuMem;
use odx_tree::Element;
use std::alloc::Global;

fn fault_of(refusal: Refusal) -> MemFault
    ensures { result ≡ fault_of refusal }
{
    let Refusal { path, wrong } = refusal;
    match wrong {
        Wrong::Missing(tag) => MemFault::Missing { path, tag },
        Wrong::BadNumber => MemFault::BadNumber { path },
        Wrong::Twice(id) => MemFault::Twice { id },
    }
}

/// The document of all ECU-MEM elements of a tree, after the ECU-MEM layer of ISO 22901-1: the
/// root itself, or those that stand below it under any tags.
///
/// Sessions, datablocks and flash data of all of them make three lists, each in document order,
/// and refer to one another by position. The first refusal in document order is answered, and
/// references are followed last. `docs/FORMATS.md` has the elements, choices and numbers.
pub fn resolve(alloc: Global, root: &Element) -> Result<EcuMem, MemFault>
    ensures value { (result ≡ Err MemFault.NoMemory) ⊎ (result ≡ catalogue root.now) }
    ensures whole { IfOk result IsWholeCatalogue }
    ensures told { IfErr result (λ f. IsTrueOf root.now f) }
{
    let mut document = Document::new(alloc);
    match document.read(alloc, root)? {
        Ok(()) => {
            let Document {
                entries,
                targets,
                blocks: _,
                flashes: _,
            } = document;
            link(alloc, &targets, entries)
        }
        Err(refusal) => Err(fault_of(refusal)),
    }
}

impl EcuMem {
    /// The position of the session with an ID, or None where no session has it.
    pub fn session(&self, id: &str) -> Option<u64>
        ensures value { result ≡ position_from (λ s. bytes_eq s.id id.now) 0 self.now.sessions }
        ensures within { IfSome result (λ i. i < length self.now.sessions) }
    {
        for (i, session) in self.sessions.as_slice().iter().enumerate() {
            if session.id.is(id) {
                return Some(i as u64);
            }
        }
        None
    }
}
