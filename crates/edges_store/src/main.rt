// Edges of the store: reads a script, makes its calls for C on one store, and prints each line with what its call answered and left behind.
//
//     keys OLD NEW                        from here on the keys have these lengths
//     store BYTES                         from here on the store has this length; what stands in it stays
//     write at PLACE LENGTH from BYTE     a pattern from a byte, of a length, into the store
//     seal at PLACE LENGTH                a lead and a text, of a length together: the text enciphered under the old key with the lead
//     check
//     read SHEET into LENGTH              into a buffer of this length
//     add SHEET text LENGTH from BYTE     with the pattern from the byte for its text
//     revise SHEET seen REVISION text LENGTH from BYTE
//     remove SHEET
//     step at PLACE
//
// A line is known by its fourth letter, which no two of these words share; the numbers are taken in their order, and other words are for
// the reader. A line that begins with # is only printed. After a call stand its number, what it left behind its pointers, where 9 stood
// before (the line's place before a step), and the digests of read's buffer and of the store; where the number is not 0, also whether each
// is as it was.
// The lines to expect are the second implementation's (host/rust/second/examples/edges_store.rs).
#![tactic(auto)]

use patterns::fill;
use printed_calls::Bench;
use reading::read_full;
use records::RECORD_SIZE;
use script::{Call, Line, seal, write};
use std::io;

// The longest key, one byte more than a call takes.
const KEY: usize = 65;
// The longest store: 1,025 slots, one more than a store may have.
const STORE: usize = 1025 * RECORD_SIZE;

// What a script works on. Its lines see the keys `old` and `new` and the first `bytes` of the store, which may grow again. The
// keys are two, as the calls for C take them.
#[derive(Drop)]
struct Desk<'a> {
    longest_old: &'a [u8; KEY],
    longest_new: &'a [u8; KEY],
    old: &'a [u8],
    new: &'a [u8],
    store: &'a mut [u8; STORE],
    before: &'a mut [u8; STORE],
    bytes: usize,
}

fn main(rt: HostRuntime) -> io::Result<()> {
    let mut script = [0u8; 65536];
    let n = read_full(&mut rt.stdin(), &mut script);
    let mut old = [0u8; KEY];
    let mut new = [0u8; KEY];
    let mut store = [0u8; STORE];
    let mut before = [0u8; STORE];
    fill(&mut old, 3, 1);
    fill(&mut new, 3, 100);
    let mut desk = Desk {
        longest_old: &old,
        longest_new: &new,
        old: &[],
        new: &[],
        store: &mut store,
        before: &mut before,
        bytes: 0,
    };
    lines(&rt, &script[..n], &mut desk)
}

// Runs each line without its newline. Where the script ends without one, the last line loses its last byte.
fn lines(rt: &impl Print, script: &[u8], desk: &mut Desk) -> io::Result<()> {
    for line in script.split_inclusive(|c| *c == b'\n') {
        if let Some((_, line)) = line.split_last() {
            rt.write_all(line)?;
            desk.run(rt, Line::from(line))?;
            print!(rt; "\n")?;
        }
    }
    Ok(())
}

impl Desk<'_> {
    fn run(&mut self, rt: &impl Print, line: Line) -> io::Result<()> {
        match line {
            Line::Keys { old, new } => {
                self.old = &self.longest_old[..old.min(KEY)];
                self.new = &self.longest_new[..new.min(KEY)];
            }
            Line::Store { bytes } => self.bytes = bytes,
            Line::Write { at, length, from } => write(self.front(), at, length, from),
            Line::Seal { at, length } => {
                let old = self.old;
                seal(old, self.front(), at, length)
            }
            Line::Call(call) => return self.make(rt, call),
            Line::Note => {}
        }
        Ok(())
    }

    // The store, as long as was asked for, and 1,025 slots at most.
    fn front(&mut self) -> &mut [u8] {
        let n = self.bytes.min(STORE);
        let store = &mut *self.store;
        &mut store[..n]
    }

    // Makes a call, and takes a copy of the store first.
    fn make(&mut self, rt: &impl Print, call: Call) -> io::Result<()> {
        let n = self.bytes.min(STORE);
        let store = &mut *self.store;
        let before = &mut *self.before;
        before[..n].copy_from_slice(&store[..n]);
        let mut bench = Bench {
            rt,
            old: self.old,
            new: self.new,
            store: &mut store[..n],
            before: &before[..n],
        };
        bench.make(call)
    }
}
