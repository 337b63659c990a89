// The lines of a script, what a line does by hand, and what is printed of a call: for the program `edges_store`.
#![tactic(auto)]

// What is left of a line.
mod left;
// What a line does to the store that is no call of it.
mod prepare;
// What is printed of a call.
mod show;

use left::Numbers;
pub use prepare::{seal, write};
pub use show::{print_kept, print_store};

// A line of the script, with the numbers that it takes, 0 where it has fewer.
#[derive(Clone, Copy)]
pub enum Line {
    Keys {
        old: usize,
        new: usize,
    },
    Store {
        bytes: usize,
    },
    Write {
        at: usize,
        length: usize,
        from: usize,
    },
    Seal {
        at: usize,
        length: usize,
    },
    Call(Call),
    // A line that begins with #, and any that is none of these.
    Note,
}

// A call of the store.
#[derive(Clone, Copy)]
pub enum Call {
    Check,
    Read {
        sheet: u32,
        length: usize,
    },
    Add {
        sheet: u32,
        length: usize,
        from: usize,
    },
    Revise {
        sheet: u32,
        seen: u32,
        length: usize,
        from: usize,
    },
    Remove {
        sheet: u32,
    },
    Step {
        at: usize,
    },
}

impl From<&[u8]> for Line {
    fn from(line: &[u8]) -> Line {
        match line {
            [b'#', ..] => Line::Note,
            [_, _, _, letter, ..] => Line::known(*letter, Numbers { rest: line }),
            _ => Line::Note,
        }
    }
}

impl Line {
    // By the fourth letter, which no two of the words share.
    fn known(letter: u8, mut n: Numbers) -> Line {
        match letter {
            b's' => Line::Keys {
                old: n.number(),
                new: n.number(),
            },
            b'r' => Line::Store { bytes: n.number() },
            b't' => Line::Write {
                at: n.number(),
                length: n.number(),
                from: n.number(),
            },
            b'l' => Line::Seal {
                at: n.number(),
                length: n.number(),
            },
            _ => Call::known(letter, n).map_or(Line::Note, Line::Call),
        }
    }
}

impl Call {
    fn known(letter: u8, mut n: Numbers) -> Option<Call> {
        Some(match letter {
            b'c' => Call::Check,
            b'd' => Call::Read {
                sheet: n.word(),
                length: n.number(),
            },
            b' ' => Call::Add {
                sheet: n.word(),
                length: n.number(),
                from: n.number(),
            },
            b'i' => Call::Revise {
                sheet: n.word(),
                seen: n.word(),
                length: n.number(),
                from: n.number(),
            },
            b'o' => Call::Remove { sheet: n.word() },
            b'p' => Call::Step { at: n.number() },
            _ => return None,
        })
    }
}
