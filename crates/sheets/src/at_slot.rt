// A sheet in a slot of a store: written whole under the new key, and rekeyed. The other slots are kept.
ghost use Rattle.std.specs.Prelude.{◌≡◌, ◌≤◌, ◌<◌, length};
ghost use Rattle.records.specs.Record.{text_most, num, rev, len};
ghost use Rattle.slots.specs.Slots.{slots, slot, put};
ghost use Rattle.sheets.specs.Text.{text_of, sheet};

use super::Keys;
use super::text::{put_sheet, take_text};
use records::{RECORD_SIZE, TEXT_MOST};
use slots::record_at;

// Slot k becomes sheet n at revision v with the text, under the new key w. The part is taken here, as in `slots::empty`.
pub fn put_sheet_at(s: &mut [u8], k: usize, w: &[u8], n: u32, v: u32, text: &[u8])
    requires { (k < slots s.old) × (length text.now ≤ text_most) }
    ensures { s.new ≡ put s.old k (sheet w.now n v text.now) }
{
    let at = k * RECORD_SIZE;
    let end = at + RECORD_SIZE;
    put_sheet(&mut s[at..end], w, n, v, text);
}

// The sheet of slot k under the new key: its number, its revision and its text, with the new lead.
pub fn rekey_at(s: &mut [u8], k: usize, keys: Keys)
    requires { (k < slots s.old) × (len (slot s.old k) ≤ text_most) }
    ensures { s.new
        ≡ put s.old k
        (sheet keys.entry.new.now (num (slot s.old k)) (rev (slot s.old k))
        (text_of keys.entry.old.now keys.entry.new.now (slot s.old k))) }
{
    let r = record_at(s, k);
    let n = records::number(r);
    let v = records::revision(r);
    let l = records::text_length(r);
    let mut room = [0u8; TEXT_MOST];
    take_text(r, keys, &mut room);
    put_sheet_at(s, k, keys.new, n, v, &room[0..l]);
}
