// The store's calls for C, each with what it answered and left behind printed: for the program `edges_store`.
#![tactic(auto)]

use patterns::{digest, fill, is_pattern};
use records::RECORD_SIZE;
use script::{Call, print_kept, print_store};
use std::io;

// What a call is made on, and where it is printed. The keys are two, and no `Keys`: the calls for C take them one by one.
#[derive(Drop)]
pub struct Bench<'a, 's, R> {
    pub rt: &'a R,
    pub old: &'a [u8],
    pub new: &'a [u8],
    pub store: &'s mut [u8],
    // The store before the call.
    pub before: &'a [u8],
}

impl<R: Print> Bench<'_, '_, R> {
    pub fn make(&mut self, call: Call) -> io::Result<()> {
        let before = self.before;
        match call {
            Call::Check => check(self.rt, self.store, before),
            Call::Read { sheet, length } => read(
                self.rt, self.old, self.new, self.store, before, sheet, length,
            ),
            Call::Add {
                sheet,
                length,
                from,
            } => self.put(None, sheet, length, from),
            Call::Revise {
                sheet,
                seen,
                length,
                from,
            } => self.put(Some(seen), sheet, length, from),
            Call::Remove { sheet } => remove(self.rt, self.store, before, sheet),
            Call::Step { at } => step(self.rt, self.old, self.new, self.store, before, at),
        }
    }

    // Adds a sheet with a pattern for its text, or revises it where a revision of it was seen.
    fn put(&mut self, seen: Option<u32>, sheet: u32, length: usize, from: usize) -> io::Result<()> {
        let before = self.before;
        let mut text = [0u8; RECORD_SIZE];
        fill(&mut text, 3, from);
        let text = &text[..length.min(RECORD_SIZE)];
        let mut revision = 9;
        let r = match seen {
            None => lagunedo::lagunedo_add(
                self.old,
                self.new,
                self.store,
                sheet,
                text,
                &mut revision,
            ),
            Some(seen) => lagunedo::lagunedo_revise(
                self.old,
                self.new,
                self.store,
                sheet,
                seen,
                text,
                &mut revision,
            ),
        };
        print!(self.rt; ": {r} revision {revision}")?;
        print_store(self.rt, r, self.store, before)
    }
}

// The calls one by one, each on what it works on alone: `check` and `read` take a store that is shared.

pub fn check(rt: &impl Print, store: &[u8], before: &[u8]) -> io::Result<()> {
    let mut fault = 9;
    let mut used = 9;
    let mut free = 9;
    let mut clear = 9;
    let mut old = 9;
    let mut new = 9;
    let r = lagunedo::lagunedo_check(
        store, &mut fault, &mut used, &mut free, &mut clear, &mut old, &mut new,
    );
    print!(rt; ": {r} fault {fault} used {used} free {free} clear {clear} old {old} new {new}")?;
    print_store(rt, r, store, before)
}

pub fn read(
    rt: &impl Print,
    old: &[u8],
    new: &[u8],
    store: &[u8],
    before: &[u8],
    sheet: u32,
    n: usize,
) -> io::Result<()> {
    let mut text = [0u8; RECORD_SIZE];
    fill(&mut text, 3, 200);
    let text = &mut text[..n.min(RECORD_SIZE)];
    let mut length = 9;
    let mut revision = 9;
    let r = lagunedo::lagunedo_read(old, new, store, sheet, text, &mut length, &mut revision);
    print!(rt;
        ": {r} length {length} revision {revision} text {:08x}",
        digest(text)
    )?;
    if r != 0 {
        print_kept(rt, is_pattern(text, 3, 200))?;
    }
    print_store(rt, r, store, before)
}

pub fn add(
    rt: &impl Print,
    old: &[u8],
    new: &[u8],
    store: &mut [u8],
    before: &[u8],
    sheet: u32,
    n: usize,
    from: usize,
) -> io::Result<()> {
    let mut bench = Bench {
        rt,
        old,
        new,
        store,
        before,
    };
    bench.put(None, sheet, n, from)
}

pub fn revise(
    rt: &impl Print,
    old: &[u8],
    new: &[u8],
    store: &mut [u8],
    before: &[u8],
    sheet: u32,
    seen: u32,
    n: usize,
    from: usize,
) -> io::Result<()> {
    let mut bench = Bench {
        rt,
        old,
        new,
        store,
        before,
    };
    bench.put(Some(seen), sheet, n, from)
}

pub fn remove(rt: &impl Print, store: &mut [u8], before: &[u8], sheet: u32) -> io::Result<()> {
    let r = lagunedo::lagunedo_remove(store, sheet);
    print!(rt; ": {r}")?;
    print_store(rt, r, store, before)
}

pub fn step(
    rt: &impl Print,
    old: &[u8],
    new: &[u8],
    store: &mut [u8],
    before: &[u8],
    at: usize,
) -> io::Result<()> {
    let mut place = at;
    let mut outcome = 9;
    let r = lagunedo::lagunedo_step(old, new, store, &mut place, &mut outcome);
    print!(rt; ": {r} outcome {outcome} place {place}")?;
    print_store(rt, r, store, before)
}
