// The text that a record holds, in clear or under a key, and a sheet written whole under the new key (01, the store).
//
// Contracts cite `specs/Text.antt`. EME2 is used by what its call leaves, and never opened. Nothing here refuses: the calls are rooms above.
#![tactic(auto)]

// A sheet in a slot of a store.
mod at_slot;
// The text of one record.
mod text;

pub use at_slot::{put_sheet_at, rekey_at};
pub use text::take_text;

// The two keys of a call: a sheet is read under the one that its mark names, and written under the new one. The store is
// not in it: a ladder is lent it to read, a call to write, and remove has no keys.
#[derive(Clone, Copy)]
pub struct Keys<'a> {
    pub old: &'a [u8],
    pub new: &'a [u8],
}
