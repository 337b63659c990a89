// The fields of a record, and whether it is sound. A field is read of a lead alone too, so of a slice; the whole record is an array.
ghost use Rattle.std.specs.Prelude.{◌≡◌, ◌≤◌, length};
ghost use Rattle.records.specs.Record.{num, rev, mark, len, all_zero, sound_used, sound};

use super::marks::Mark;
use super::{RECORD_SIZE, TEXT_MOST};

// The sheet number; 0 means the slot is free.
pub fn number(r: &[u8]) -> u32
    requires { 16 ≤ length r.now }
    ensures { result ≡ num r.now }
{
    u32::from_le_bytes([r[0], r[1], r[2], r[3]])
}

pub fn revision(r: &[u8]) -> u32
    requires { 16 ≤ length r.now }
    ensures { result ≡ rev r.now }
{
    u32::from_le_bytes([r[4], r[5], r[10], r[11]])
}

// The byte of a `Mark`, and in an unsound record anything, which is why it is a number.
pub fn mark(r: &[u8]) -> u8
    requires { 16 ≤ length r.now }
    ensures { result ≡ mark r.now }
{
    r[6]
}

pub fn text_length(r: &[u8]) -> usize
    requires { 16 ≤ length r.now }
    ensures { result ≡ len r.now }
{
    u16::from_le_bytes([r[8], r[9]]) as usize
}

// 01: a free slot is all zeros, and in a used one every field is as tabled.
pub fn is_sound(r: &[u8; RECORD_SIZE]) -> bool
    ensures { result ≡ sound r.now }
{
    if number(r) == 0 {
        return zeros(r);
    }
    is_sound_used(r)
}

fn is_sound_used(r: &[u8; RECORD_SIZE]) -> bool
    ensures { result ≡ sound_used r.now }
{
    if revision(r) == 0 {
        return false;
    }
    if mark(r) > u8::from(Mark::New) {
        return false;
    }
    if r[7] != 0 {
        return false;
    }
    let l = text_length(r);
    if l < 16 {
        return false;
    }
    if l > TEXT_MOST {
        return false;
    }
    if !zeros(&r[12..16]) {
        return false;
    }
    let end = 16 + l;
    zeros(&r[end..])
}

// Whether every byte is 0. Eight at a time: most bytes of a store with free slots are asked here.
fn zeros(s: &[u8]) -> bool
    ensures { result ≡ all_zero s.now }
{
    let (eights, rest) = s.as_chunks::<8>();
    eights.iter().all(|e| u64::from_le_bytes(*e) == 0) && rest.iter().all(|x| *x == 0)
}
