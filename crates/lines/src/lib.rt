// The listing of 01: what the listing program prints of a store, written into a lent buffer.
//
// `list` answers any bytes. Its contract cites `specs/Listing.antt`, where one definition gives the whole output from the input's bytes.
#![tactic(auto)]

// Bytes laid into the buffer.
mod laying;
// Numbers in decimal.
mod decimals;
// A line for each used slot.
mod table;

ghost use Rattle.std.specs.Prelude.{◌+◌, ◌≤◌};
ghost use Rattle.lines.specs.Laid.{room, Laid};
ghost use Rattle.lines.specs.Listing.{counts_line, Listed};

use checking::{Checked, Counts};
use decimals::named;
use laying::text;
use records::RECORD_SIZE;
use table::used_lines;

// 31 slots.
const MOST: usize = 31 * RECORD_SIZE;

// Writes the listing of the store to the front of `out`, as far as it fits, keeps the rest of `out`, and answers the length of the whole
// listing, which is at most 4,096.
pub fn list(store: &[u8], out: &mut [u8]) -> usize
    ensures { (Listed store.now out.old result out.new) × (result ≤ room) }
{
    if store.len() > MOST {
        return text(out, 0, b"too long\n");
    }
    match checking::check(store) {
        Err(x) => named(out, 0, b"refused ", u32::from(x) as usize, b'\n'),
        Ok(Checked::Fault(k)) => named(out, 0, b"fault at ", k as usize, b'\n'),
        Ok(Checked::Counts(c)) => {
            let at = used_lines(out, store);
            counts(out, at, c)
        }
    }
}

// The line of the five counts.
fn counts(out: &mut [u8], at: usize, c: Counts) -> usize
    requires { at + 129 ≤ room }
    ensures { (Laid (counts_line c.used c.free c.clear c.old c.new) at out.old result out.new) × (result ≤ at + 129) }
{
    let at = named(out, at, b"used ", c.used as usize, b' ');
    let at = named(out, at, b"free ", c.free as usize, b' ');
    let at = named(out, at, b"clear ", c.clear as usize, b' ');
    let at = named(out, at, b"old ", c.old as usize, b' ');
    named(out, at, b"new ", c.new as usize, b'\n')
}
