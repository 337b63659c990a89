// One record of the store (01, the store): its fields, whether it is sound, and a record written whole.
//
// Contracts cite `specs/Record.antt`, the one place that knows where a field stands, and of a mark's byte `specs/Marks.antt`. The fields stand in the
// first 16 bytes, the lead, so that they can be read of a lead alone. Nothing here knows a key: the text that a record holds is a room above.
#![tactic(auto)]

// The fields of a record, and whether it is sound.
mod fields;
// The three marks. No name of it stands at the top beside the function `mark`: the two would differ in case alone.
pub mod marks;
// A record written whole.
mod writing;

pub use fields::{is_sound, mark, number, revision, text_length};
pub use writing::write;

// 01: records of 2,112 bytes.
pub const RECORD_SIZE: usize = 2112;

// 01: a text of at most 2,096 bytes. A clause says it of each text: a type with the slice in it would owe at each call that it still lends the same.
pub const TEXT_MOST: usize = 2096;

// 02, order 1: a revision of at most 4,294,967,295.
pub const GREATEST_REVISION: u32 = 4294967295;
