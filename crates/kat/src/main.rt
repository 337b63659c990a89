// Known answers: runs the lines of its standard input through the calls of AES and prints what they answer.
//
//     e KEY BLOCK     enciphers: the call's number and the block afterwards
//     d KEY BLOCK     deciphers, likewise
//     s KEY           sets the key up: 0 and the last word of the schedule, or 1 where AES does not take the key
//     f               the substitution of all 256 bytes: what the running code makes of them, and what the table has
//     b               likewise the inverse substitution
//
// KEY and BLOCK are in hex, of at most 64 bytes, and may be empty; one blank stands before each.
#![tactic(auto)]

ghost use Rattle.std.specs.Prelude.{◌≤◌, ◌<◌, length, IfSome, OnSome};

use numbers::{Refusal, answer_number};
use reading::read_full;
use std::io;

// What a line is to run.
#[derive(Clone, Copy)]
enum Run {
    Encipher,
    Decipher,
    SetUp,
    Substitute,
    SubstituteBack,
}

// By the line's first letter; any other enciphers.
impl From<u8> for Run {
    fn from(letter: u8) -> Run {
        match letter {
            b'd' => Run::Decipher,
            b's' => Run::SetUp,
            b'f' => Run::Substitute,
            b'b' => Run::SubstituteBack,
            _ => Run::Encipher,
        }
    }
}

// What is left of the text.
#[derive(Drop)]
struct Text<'a> {
    rest: &'a [u8],
}

fn main(rt: HostRuntime) -> io::Result<()> {
    let mut text = [0u8; 65536];
    let n = read_full(&mut rt.stdin(), &mut text);
    lines(&rt, Text { rest: &text[..n] })
}

fn lines(rt: &impl Print, mut text: Text) -> io::Result<()> {
    // By a cursor and no split: after an empty line the next is read on, as it was.
    while let Some(letter) = text.letter() {
        let mut key = [0u8; 64];
        let mut block = [0u8; 64];
        let key = text.hex(&mut key);
        let block = text.hex(&mut block);
        answer(rt, Run::from(letter), key, block)?;
        print!(rt; "\n")?;
        text.end_line();
    }
    Ok(())
}

// Prints what the line's call answers.
fn answer(rt: &impl Print, run: Run, key: &[u8], block: &mut [u8]) -> io::Result<()> {
    match run {
        Run::Encipher => crypt(rt, aes::encipher, key, block),
        Run::Decipher => crypt(rt, aes::decipher, key, block),
        Run::SetUp => set_up(rt, key),
        Run::Substitute => substitutions(rt, sbox::sub_all, tables::sub_all),
        Run::SubstituteBack => substitutions(rt, sbox::inv_sub_all, tables::inv_sub_all),
    }
}

// The number of a call of AES, and the block afterwards.
fn crypt<F: FnOnce(&[u8], &mut [u8]) -> Result<(), Refusal>>(
    rt: &impl Print,
    f: F,
    key: &[u8],
    block: &mut [u8],
) -> io::Result<()>
    requires callable { F.IsAlwaysCallable f }
{
    print_number(rt, f(key, block))?;
    print_bytes(rt, block)
}

// The last word of the key's schedule.
fn set_up(rt: &impl Print, key: &[u8]) -> io::Result<()> {
    if !aes::key_size(key.len()) {
        return print_number(rt, Err(Refusal::KeyLength));
    }
    let keys = aes::key_setup(key);
    let [.., a, b, c, d] = keys.keys[keys.rounds];
    print_number(rt, Ok(()))?;
    print_bytes(rt, &[a, b, c, d])
}

// The substitution of all bytes: by the running code, then by the table.
fn substitutions<F: FnOnce(&mut [u8]), G: FnOnce(&mut [u8])>(
    rt: &impl Print,
    work_out: F,
    look_up: G,
) -> io::Result<()>
    requires worked { F.IsAlwaysCallable work_out }
    requires looked { G.IsAlwaysCallable look_up }
{
    let mut worked: [u8; 256] = std::array::from_fn(|i| i as u8);
    let mut looked = worked;
    work_out(&mut worked);
    look_up(&mut looked);
    print_bytes(rt, &worked)?;
    print!(rt; " ")?;
    print_bytes(rt, &looked)
}

fn print_number(rt: &impl Print, answer: Result<(), Refusal>) -> io::Result<()> {
    print!(rt; "{} ", answer_number(answer))
}

fn print_bytes(rt: &impl Print, s: &[u8]) -> io::Result<()> {
    for x in s {
        print!(rt; "{x:02x}")?;
    }
    Ok(())
}

impl Text<'_> {
    fn letter(&mut self) -> Option<u8>
        ensures { OnSome result (length self.new.rest.now < length self.old.rest.now) }
    {
        let (first, rest) = self.rest.split_first()?;
        self.rest = rest;
        Some(*first)
    }

    // The bytes of the hex digits after a blank, laid to the front of `out`.
    fn hex<'a>(&mut self, out: &'a mut [u8]) -> &'a mut [u8]
        ensures { length self.new.rest.now ≤ length self.old.rest.now }
    {
        if let [b' ', rest @ ..] = self.rest {
            self.rest = rest;
        }
        for (i, x) in out.iter_mut().enumerate() {
            let Some(byte) = self.byte() else {
                return &mut out[..i];
            };
            *x = byte;
        }
        out
    }

    // The byte of the next two hex digits.
    fn byte(&mut self) -> Option<u8>
        ensures { length self.new.rest.now ≤ length self.old.rest.now }
    {
        let [high, low, rest @ ..] = self.rest else {
            return None;
        };
        let byte = digit(*high)? * 16 + digit(*low)?;
        self.rest = rest;
        Some(byte)
    }

    // On to the next line.
    fn end_line(&mut self)
        ensures { length self.new.rest.now ≤ length self.old.rest.now }
    {
        let end = self.rest.iter().position(|c| *c == b'\n');
        self.rest = match end {
            Some(i) => &self.rest[i + 1..],
            None => &[],
        };
    }
}

// The value of a hex digit.
// Lower case alone: to_digit takes upper case too, and what is printed may not change.
fn digit(c: u8) -> Option<u8>
    ensures { IfSome result (λ d. d < 16) }
{
    match c {
        b'0'..=b'9' => Some(c - b'0'),
        b'a'..=b'f' => Some(c - b'a' + 10),
        _ => None,
    }
}
