ghost use Rattle.std.specs.Prelude.{◌≡◌, ◌⊎◌, ◌<◌, Err, Some, None, IfOk, MatchOption, codes};
ghost use Rattle.serde_json.specs.View.{view};
ghost use Rattle.flash_order.specs.Fields.{chosen};
ghost use Rattle.flash_order.specs.Promises.{IsSource};
ghost use Rattle.flash_order.specs.Sources.{fill_byte, raw_source, session_source, source};

use crate::fault::FieldFault;
use crate::fields::{bad, file_of, one_byte_of, place_at, session_id_of};
use crate::lists::{dids_at, idents_at};
use crate::order::Source;
use flash_base::Text;
use serde_json::Value;
use std::alloc::Global;

fn raw_from(alloc: Global, raw: &Value, value: &Value) -> Result<Source, FieldFault>
    ensures is { (result ≡ Err FieldFault.NoMemory) ⊎ (result ≡ raw_source (view raw.now) (view value.now)) }
    ensures form { IfOk result IsSource }
{
    let Some(name) = file_of(raw) else {
        return Err(bad(alloc, "raw"));
    };
    let file = Text::from_str(alloc, name)?;
    let at = place_at(alloc, value)?;
    let idents = idents_at(alloc, value)?;
    if value.get("dids").is_some() {
        return Err(bad(alloc, "dids"));
    }
    if value.get("fill").is_some() {
        return Err(bad(alloc, "fill"));
    }
    Ok(Source::Raw { file, at, idents })
}

/// The byte of an address that the data lack: none where nothing is said.
fn fill_at(alloc: Global, value: &Value) -> Result<Option<u8>, FieldFault>
    ensures { (result ≡ Err FieldFault.NoMemory)
        ⊎ (result ≡ chosen (codes "fill") None fill_byte (view value.now)) }
{
    let Some(found) = value.get("fill") else {
        return Ok(None);
    };
    match one_byte_of(found) {
        Some(fill) => Ok(Some(fill)),
        None => Err(bad(alloc, "fill")),
    }
}

fn session_from(alloc: Global, session: &Value, value: &Value) -> Result<Source, FieldFault>
    ensures is { (result ≡ Err FieldFault.NoMemory)
        ⊎ (result ≡ session_source (view session.now) (view value.now)) }
    ensures form { IfOk result IsSource }
{
    let Some(name) = session_id_of(session) else {
        return Err(bad(alloc, "session"));
    };
    let id = Text::from_str(alloc, name)?;
    if value.get("at").is_some() {
        return Err(bad(alloc, "at"));
    }
    if value.get("idents").is_some() {
        return Err(bad(alloc, "idents"));
    }
    let dids = dids_at(alloc, value)?;
    let fill = fill_at(alloc, value)?;
    Ok(Source::Session { id, dids, fill })
}

/// Where the bytes of a task come from: exactly one of a file and a session.
pub(crate) fn source_at(alloc: Global, value: &Value) -> Result<Source, FieldFault>
    ensures is { (result ≡ Err FieldFault.NoMemory) ⊎ (result ≡ source (view value.now)) }
    ensures form { IfOk result IsSource }
{
    match value.get("raw") {
        Some(raw) => match value.get("session") {
            Some(_) => Err(bad(alloc, "raw")),
            None => raw_from(alloc, raw, value),
        },
        None => match value.get("session") {
            Some(session) => session_from(alloc, session, value),
            None => Err(bad(alloc, "raw")),
        },
    }
}
