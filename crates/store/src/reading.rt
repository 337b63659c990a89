// Read: the text of a sheet in clear, to the front of a lent buffer.
ghost use Rattle.std.specs.Prelude.{◌≡◌, ◌++◌, ◌≤◌, ◌<◌, length, drop};
ghost use Rattle.records.specs.Record.{text_most, rev, len};
ghost use Rattle.slots.specs.Slots.{slots, slot};
ghost use Rattle.sheets.specs.Text.{text_of};
ghost use Rattle.store.specs.Calls.{ReadCalled};

use super::Text;
use numbers::Refusal;
use plans::read_plan;
use sheets::Keys;
use slots::record_at;

pub fn read(keys: Keys, store: &[u8], sheet: u32, text: &mut [u8]) -> Result<Text, Refusal>
    ensures { ReadCalled keys.entry.old.now keys.entry.new.now store.now sheet text.old result text.new }
{
    let k = read_plan(keys, store, sheet, text.len())?;
    Ok(read_slot(keys, store, k, text))
}

// The text of slot k, and its length and revision.
pub fn read_slot(keys: Keys, store: &[u8], k: usize, text: &mut [u8]) -> Text
    requires { (k < slots store.now) × (len (slot store.now k) ≤ text_most) × (len (slot store.now k) ≤ length text.old) }
    ensures { (result ≡ record { length = len (slot store.now k); revision = rev (slot store.now k) })
        × (text.new
        ≡ text_of keys.entry.old.now keys.entry.new.now (slot store.now k)
        ++ drop (len (slot store.now k)) text.old) }
{
    let r = record_at(store, k);
    sheets::take_text(r, keys, text);
    Text {
        length: records::text_length(r) as u32,
        revision: records::revision(r),
    }
}
