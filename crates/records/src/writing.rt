// A record written whole: lead, text, and zeros after it.
ghost use Rattle.std.specs.Prelude.{◌≡◌, ◌++◌, ◌-◌, ◌≤◌, length, take, replicate};
ghost use Rattle.records.specs.Record.{record_size, text_most, lead, record_of};

// The record of sheet n at revision v with mark m, holding the text as it stands. The mark is a byte, as `record_of` has it: a `Mark` would ask
// more of callers. The record is a slice, as callers have it: the library does not say what a store ends as that is lent by `as_chunks_mut`, and
// `as_mut_array` would give each caller a branch that cannot come.
pub fn write(r: &mut [u8], n: u32, v: u32, m: u8, text: &[u8])
    requires { (length r.old ≡ record_size) × (length text.now ≤ text_most) }
    ensures { r.new ≡ record_of n v m text.now }
{
    let l = text.len();
    block::put(r, 0, lead(n, v, m, l));
    block::copy(r, 16, text);
    clear(r, 16 + l);
}

// The mark as a byte, as in `write`; number and revision are two parameters here and there, as the calls of 01 give them.
fn lead(n: u32, v: u32, m: u8, l: usize) -> [u8; 16]
    ensures { result ≡ lead n v m l }
{
    let n = n.to_le_bytes();
    let v = v.to_le_bytes();
    let l = l.to_le_bytes();
    [
        n[0], n[1], n[2], n[3], v[0], v[1], m, 0, l[0], l[1], v[2], v[3], 0, 0, 0, 0,
    ]
}

// Makes every byte of s from `from` on 0.
fn clear(s: &mut [u8], from: usize)
    requires { from ≤ length s.old }
    ensures { s.new ≡ take from s.old ++ replicate (length s.old - from) 0 }
{
    s[from..].fill(0);
}
