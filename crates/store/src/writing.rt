// Add, revise and remove: one slot written whole.
ghost use Rattle.store.specs.Calls.{AddCalled, ReviseCalled, RemoveCalled};

use numbers::Refusal;
use plans::{add_plan, remove_plan, revise_plan};
use sheets::{Keys, put_sheet_at};

// The lowest slot whose sheet number is 0 becomes the sheet at revision 1, under the new key.
pub fn add(keys: Keys, store: &mut [u8], sheet: u32, text: &[u8]) -> Result<u32, Refusal>
    ensures { AddCalled keys.entry.old.now keys.entry.new.now store.old sheet text.now result store.new }
{
    let k = add_plan(keys, store, sheet, text)?;
    put_sheet_at(store, k, keys.new, sheet, 1, text);
    Ok(1)
}

// The sheet's text replaced whole: revision one higher than the operator saw, under the new key.
pub fn revise(
    keys: Keys,
    store: &mut [u8],
    sheet: u32,
    seen: u32,
    text: &[u8],
) -> Result<u32, Refusal>
    ensures { ReviseCalled keys.entry.old.now keys.entry.new.now store.old sheet seen text.now result store.new }
{
    let k = revise_plan(keys, store, sheet, seen, text)?;
    let v = seen + 1;
    put_sheet_at(store, k, keys.new, sheet, v, text);
    Ok(v)
}

// The sheet's slot becomes zeros, sound or not.
pub fn remove(store: &mut [u8], sheet: u32) -> Result<(), Refusal>
    ensures { RemoveCalled store.old sheet result store.new }
{
    let k = remove_plan(store, sheet)?;
    slots::empty(store, k);
    Ok(())
}
