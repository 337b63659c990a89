// A line for each used slot.
ghost use Rattle.std.specs.Prelude.{◌+◌, ◌≤◌};
ghost use Rattle.slots.specs.Slots.{slots};
ghost use Rattle.lines.specs.Laid.{room, Laid};
ghost use Rattle.lines.specs.Listing.{line, record_line, lines};

use super::decimals::field;
use records::RECORD_SIZE;

// The lines of all slots.
pub fn used_lines(out: &mut [u8], store: &[u8]) -> usize
    requires { slots store.now ≤ 31 }
    ensures { (Laid (lines store.now (slots store.now)) 0 out.old result out.new) × (result ≤ 3255) }
{
    let mut at = 0;
    for (k, r) in slots::records_of(store).iter().enumerate() {
        at = slot_line(out, at, k, r);
    }
    at
}

// The line of slot k, whose record is r, and nothing if it is free.
fn slot_line(out: &mut [u8], at: usize, k: usize, r: &[u8; RECORD_SIZE]) -> usize
    requires { at + 105 ≤ room }
    ensures { (Laid (record_line k r.now) at out.old result out.new) × (result ≤ at + 105) }
{
    if records::number(r) == 0 {
        return at;
    }
    line(out, at, k, r)
}

// Slot, sheet, revision, mark, length.
fn line(out: &mut [u8], at: usize, k: usize, r: &[u8; RECORD_SIZE]) -> usize
    requires { at + 105 ≤ room }
    ensures { (Laid (line k r.now) at out.old result out.new) × (result ≤ at + 105) }
{
    let at = field(out, at, k, b' ');
    let at = field(out, at, records::number(r) as usize, b' ');
    let at = field(out, at, records::revision(r) as usize, b' ');
    let at = field(out, at, records::mark(r) as usize, b' ');
    field(out, at, records::text_length(r), b'\n')
}
