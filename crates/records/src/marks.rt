// The three marks of a used record.
ghost use Rattle.std.specs.Prelude.{◌≡◌};
ghost use Rattle.records.specs.Marks.{mark_byte};

// 01: a used record holds its text in clear, or under the old or the new key.
#[derive(Clone, Copy, PartialEq, Eq)]
pub enum Mark {
    Clear,
    Old,
    New,
}

// The byte that stands for a mark, a row for each. One way only: an unsound record has any byte, of which the definitions speak too, so callers compare
// bytes.
impl From<Mark> for u8 {
    ghost from_gives = { λ m b. b ≡ mark_byte m };

    fn from(mark: Mark) -> u8 {
        match mark {
            Mark::Clear => 0,
            Mark::Old => 1,
            Mark::New => 2,
        }
    }
}
