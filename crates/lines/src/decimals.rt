// Numbers in decimal.
ghost use Rattle.std.specs.Prelude.{◌+◌, ◌≤◌, length};
ghost use Rattle.lines.specs.Decimal.{decimal};
ghost use Rattle.lines.specs.Laid.{room, Laid};
ghost use Rattle.lines.specs.Listing.{field, named};

use super::laying::{put, text};
use itoa::Buffer;

// The digits of n, of which there are at most 20.
pub fn number(out: &mut [u8], at: usize, n: usize) -> usize
    requires { at + 20 ≤ room }
    ensures { Laid (decimal n) at out.old result out.new }
{
    text(out, at, Buffer::new().format(n).as_bytes())
}

// A number and the byte after it.
pub fn field(out: &mut [u8], at: usize, n: usize, end: u8) -> usize
    requires { at + 21 ≤ room }
    ensures { (Laid (field n end) at out.old result out.new) × (result ≤ at + 21) }
{
    let past = number(out, at, n);
    put(out, past, end)
}

// A word, a number and the byte after it.
pub fn named(out: &mut [u8], at: usize, word: &[u8], n: usize, end: u8) -> usize
    requires { at + length word.now + 21 ≤ room }
    ensures { (Laid (named word.now n end) at out.old result out.new)
        × (result ≤ at + length word.now + 21) }
{
    let past = text(out, at, word);
    field(out, past, n, end)
}
