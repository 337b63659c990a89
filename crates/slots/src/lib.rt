// The slots of a store (01, the store): records one after another. A slot is looked at, looked for by its sheet number, and emptied; what
// is done with a key to the sheet in a slot is a room above.
//
// Contracts cite `specs/Slots.antt`.
#![tactic(auto)]

ghost use Rattle.std.specs.Prelude.{◌≡◌, ◌<◌};
ghost use Rattle.block.specs.Tab.{tab};
ghost use Rattle.slots.specs.Slots.{slots, slot, put, emptied, found, bad_size};

use records::{RECORD_SIZE, number};

// 01's 4: not a whole number of records, or over 1,024.
pub fn bad_size(s: &[u8]) -> bool
    ensures { result ≡ bad_size s.now }
{
    s.len() % RECORD_SIZE != 0 || s.len() / RECORD_SIZE > 1024
}

pub fn count(s: &[u8]) -> usize
    ensures { result ≡ slots s.now }
{
    s.len() / RECORD_SIZE
}

// The records, one a slot, in their order.
pub fn records_of(s: &[u8]) -> &[[u8; RECORD_SIZE]]
    ensures { result.now ≡ tab (slots s.now) (slot s.now) }
{
    s.as_chunks().0
}

// The record in slot k. A place stays a number with `k < slots`, here and above: the caller found it in this very store, which no type of the place says.
pub fn record_at(s: &[u8], k: usize) -> &[u8; RECORD_SIZE]
    requires { k < slots s.now }
    ensures { result.now ≡ slot s.now k }
{
    &records_of(s)[k]
}

// The lowest slot with sheet number n.
pub fn find(s: &[u8], n: u32) -> Option<usize>
    ensures { result ≡ found s.now n }
{
    records_of(s).iter().position(|r| number(r) == n)
}

// Slot k becomes all zeros. The part is taken here: of a part that a function lends to be written no proof says what the store becomes
// (docs/DECISIONS.md, choices, 26).
pub fn empty(s: &mut [u8], k: usize)
    requires { k < slots s.old }
    ensures { s.new ≡ put s.old k emptied }
{
    let at = k * RECORD_SIZE;
    let end = at + RECORD_SIZE;
    s[at..end].fill(0);
}
