ghost use Rattle.std.specs.Prelude.{◌≡◌, ◌+◌, ◌*◌, ◌≤◌, ◌++◌, length, take};
ghost use Rattle.flash_journal.specs.Bodies.{bodies_of as these_bodies};

use crate::spelling::spelling;
use flash_plan::Entry;

// Puts a text over the bytes from a place on.
fn put(bytes: &mut [u8], at: usize, text: &[u8])
    requires { at + length text.now ≤ length bytes.old }
    ensures { take (at + length text.now) bytes.new ≡ take at bytes.old ++ text.now }
{
    bytes[at..at + text.len()].copy_from_slice(text);
}

// Puts the bodies of entries at the beginning.
fn put_all(bytes: &mut [u8], entries: &[Entry])
    requires { 16 * length entries.now ≤ length bytes.old }
    ensures { take (16 * length entries.now) bytes.new ≡ these_bodies entries.now }
{
    for i in 0..entries.len() {
        put(bytes, 16 * i, &spelling(entries[i]));
    }
}

/// The bodies of up to 64 entries, one after another.
pub fn bodies_of(entries: &[Entry]) -> [u8; 1024]
    requires { length entries.now ≤ 64 }
    ensures { take (16 * length entries.now) result ≡ these_bodies entries.now }
{
    let mut bodies = [0; 1024];
    put_all(&mut bodies, entries);
    bodies
}
