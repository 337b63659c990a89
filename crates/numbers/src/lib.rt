// 01, numbers returned in place of a result, and those of 02: one name for each, the one that the header, the Rust wrapper and the desk use too.
//
// Every call of AES, EME2, XTS and the store answers a `Result` whose error is a `Refusal`. Contracts cite `specs/Numbers.antt`: the number that the
// paper gives to each.
#![tactic(auto)]

ghost use Rattle.std.specs.Prelude.{◌≡◌};
ghost use Rattle.numbers.specs.Numbers.{paper, answer_paper};

// 01's 1 to 14, in their order, then 02's. Of AES alone the message is the block.
#[derive(Clone, Copy, PartialEq, Eq)]
pub enum Refusal {
    KeyLength,
    MessageLength,
    DataLength,
    StoreLength,
    SheetZero,
    TextLength,
    NoSheet,
    OtherRevision,
    LastRevision,
    NoFreeSlot,
    SheetPresent,
    SlotUnsound,
    BufferLength,
    LengthChanged,
    XtsKeyLength,
    UnitLength,
    BlockNotAlone,
}

// The number of a refusal, 01's or 02's: a row for each, which `tools/numbers` holds to the header, and of which an edit turns one.
impl From<Refusal> for u32 {
    ghost from_gives = { λ x n. n ≡ paper x };

    fn from(x: Refusal) -> u32 {
        match x {
            Refusal::KeyLength => 1,
            Refusal::MessageLength => 2,
            Refusal::DataLength => 3,
            Refusal::StoreLength => 4,
            Refusal::SheetZero => 5,
            Refusal::TextLength => 6,
            Refusal::NoSheet => 7,
            Refusal::OtherRevision => 8,
            Refusal::LastRevision => 9,
            Refusal::NoFreeSlot => 10,
            Refusal::SheetPresent => 11,
            Refusal::SlotUnsound => 12,
            Refusal::BufferLength => 13,
            Refusal::LengthChanged => 14,
            Refusal::XtsKeyLength => 15,
            Refusal::UnitLength => 16,
            Refusal::BlockNotAlone => 17,
        }
    }
}

// The number that a call answers, which gives nothing beside it: 0 if the call was not refused. No `From`, since neither `u32` nor `Result` is of this
// crate.
pub fn answer_number(a: Result<(), Refusal>) -> u32
    ensures { result ≡ answer_paper a }
{
    match a {
        Ok(()) => 0,
        Err(x) => u32::from(x),
    }
}
