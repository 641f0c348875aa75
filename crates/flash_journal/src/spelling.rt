ghost use Rattle.std.specs.Prelude.{◌≡◌, ◌+◌, ◌∷◌, ◌/◌, ◌%◌, ◌≤◌, true, false, length, replicate, IsNone, IfSome};
ghost use Rattle.flash_plan.specs.declared.outcome.Entry.{Entry as AnEntry};
ghost use Rattle.journal_model.specs.Records.{body_of, stands_at};
ghost use Rattle.flash_journal.specs.Seen.{entry_like as an_entry_like};

use flash_plan::Entry;

// A body of this kind.
fn body(kind: u8, unit: u16, segment: u16) -> [u8; 16]
    ensures { result ≡ kind ∷ 0 ∷ unit / 256 ∷ unit % 256 ∷ segment / 256 ∷ segment % 256 ∷ replicate 10 0 }
{
    [
        kind,
        0,
        (unit / 256) as u8,
        (unit % 256) as u8,
        (segment / 256) as u8,
        (segment % 256) as u8,
        0,
        0,
        0,
        0,
        0,
        0,
        0,
        0,
        0,
        0,
    ]
}

/// The 16 bytes of an entry.
pub fn spelling(entry: Entry) -> [u8; 16]
    ensures { result ≡ body_of entry }
{
    match entry {
        Entry::Begun(unit) => body(1, unit, 0),
        Entry::Marked { unit, segment } => body(3, unit, segment),
        Entry::Complete(unit) => body(2, unit, 0),
    }
}

/// Whether this text stands at the place.
pub fn stands(bytes: &[u8], at: usize, text: &[u8]) -> bool
    requires { at + length text.now ≤ length bytes.now }
    ensures { result ≡ stands_at bytes.now at (length text.now) text.now }
{
    for i in 0..text.len() {
        if bytes[at + i] != text[i] {
            return false;
        }
    }
    true
}

// The entry that these bytes can only be, by its kind.
fn entry_like(kind: u8, unit: u16, segment: u16) -> Entry
    ensures { result ≡ an_entry_like kind unit segment }
{
    match kind {
        1 => Entry::Begun(unit),
        3 => Entry::Marked { unit, segment },
        _ => Entry::Complete(unit),
    }
}

/// The entry whose 16 bytes stand at the place.
pub fn entry_at(bytes: &[u8], at: usize) -> Option<Entry>
    requires { at + 16 ≤ length bytes.now }
    ensures some { IfSome result (λ e. stands_at bytes.now at 16 (body_of e) ≡ true) }
    ensures none { IsNone result → (e : AnEntry) → stands_at bytes.now at 16 (body_of e) ≡ false }
{
    let unit = 256 * bytes[at + 2] as u16 + bytes[at + 3] as u16;
    let segment = 256 * bytes[at + 4] as u16 + bytes[at + 5] as u16;
    let entry = entry_like(bytes[at], unit, segment);
    if stands(bytes, at, &spelling(entry)) {
        Some(entry)
    } else {
        None
    }
}
