ghost use Rattle.std.specs.Prelude.{◌≡◌, ◌≤◌, IsTrue, IfOk, IfErr, length};
ghost use Rattle.shop_model.specs.History.{disk_now};
ghost use Rattle.journal_steps.specs.Later.{IsDiskLater, SameDisk};
ghost use Rattle.journal_steps.specs.Read.{IsFront};
ghost use Rattle.flash_journal.specs.Causes.{ReadCause};

use flash_base::NoMemory;
use shop_model::Shop;
use std::alloc::Global;

/// Why nothing could be read.
#[derive(Clone, Copy, Debug, PartialEq, Eq)]
pub enum ReadFault {
    Disk,
    Memory,
}

/// Reads the beginning of the file in one read, up to `limit` bytes.
pub fn read_front<S: Shop>(alloc: Global, shop: &mut S, limit: u64) -> Result<Vec<u8>, ReadFault>
    ensures bytes { IfOk result (λ v. IsTrue S.tells_disk
        → IsFront limit (disk_now (S.history shop.old)).bytes v.items) }
    ensures disk { disk_now (S.history shop.new) ≡ disk_now (S.history shop.old) }
    ensures same { SameDisk (S.history shop.old) (S.history shop.new) }
    ensures later { IsDiskLater (S.history shop.old) (S.history shop.new) }
    ensures cause { IfErr result (ReadCause (S.history shop.old) (S.history shop.new)) }
{
    let Ok(len) = shop.len() else {
        return Err(ReadFault::Disk);
    };
    let size = if len < limit { len } else { limit };
    let Ok(mut bytes) = zeros(alloc, size as usize) else {
        return Err(ReadFault::Memory);
    };
    match shop.read_at(0, &mut bytes) {
        Ok(()) => Ok(bytes),
        Err(_) => Err(ReadFault::Disk),
    }
}

fn zeros(alloc: Global, size: usize) -> Result<Vec<u8>, NoMemory>
    ensures { IfOk result (λ v. length v.items ≡ size) }
{
    Ok(vec![in alloc; 0u8; size]?)
}
