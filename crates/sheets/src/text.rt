// The text of a record: in clear at the front of a buffer, and a new one under the new key.
ghost use Rattle.std.specs.Prelude.{false, ◌≡◌, ◌++◌, ◌+◌, ◌≤◌, length, take, drop};
ghost use Rattle.eme2.specs.Transform.{afterwards};
ghost use Rattle.records.specs.Record.{record_size, text_most, len};
ghost use Rattle.sheets.specs.Text.{text_of, sheet};

use super::Keys;
use records::marks::Mark;
use records::{RECORD_SIZE, mark, text_length, write};

// The record r becomes sheet n at revision v with the text, under the new key w with the new lead. The record is a slice, as
// `records::write` takes it.
pub fn put_sheet(r: &mut [u8], w: &[u8], n: u32, v: u32, text: &[u8])
    requires { (length r.old ≡ record_size) × (length text.now ≤ text_most) }
    ensures { r.new ≡ sheet w.now n v text.now }
{
    let l = text.len();
    write(r, n, v, u8::from(Mark::New), text);
    seal(r, w, l);
}

// The l bytes after the lead enciphered, the lead being the associated data.
fn seal(r: &mut [u8], w: &[u8], l: usize)
    requires { 16 + l ≤ length r.old }
    ensures { r.new
        ≡ take 16 r.old
        ++ (afterwards false w.now (take 16 r.old) (take l (drop 16 r.old)) ++ drop (16 + l) r.old) }
{
    let h = block::load(r, 0);
    let to = 16 + l;
    let _ = eme2::encipher(w, &h, &mut r[16..to]);
}

// The text of the record r in clear at the front of `out`; the rest of `out` is kept.
pub fn take_text(r: &[u8; RECORD_SIZE], keys: Keys, out: &mut [u8])
    requires { (16 + len r.now ≤ record_size) × (len r.now ≤ length out.old) }
    ensures { out.new
        ≡ text_of keys.entry.old.now keys.entry.new.now r.now ++ drop (len r.now) out.old }
{
    let l = text_length(r);
    let end = 16 + l;
    block::copy(out, 0, &r[16..end]);
    let h = block::load(r, 0);
    let m = mark(r);
    if m == u8::from(Mark::Clear) {
        return;
    }
    let key = if m == u8::from(Mark::Old) {
        keys.old
    } else {
        keys.new
    };
    let _ = eme2::decipher(key, &h, &mut out[0..l]);
}
