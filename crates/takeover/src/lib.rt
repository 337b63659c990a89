// Conversions (02, order 3): a sheet that comes from a disk under another cipher is deciphered and added. The bytes that it was read from are kept.
//
// Contracts cite what the conversion comes to (`specs/Sources.antt`), a refusal of its own or a text, and what the store's calls say of that
// (`store`, specs/Conversions).
#![tactic(auto)]

ghost use Rattle.std.specs.Prelude.{true, ◌≡◌, ◌≤◌, length, take};
ghost use Rattle.records.specs.Record.{text_most};
ghost use Rattle.store.specs.Conversions.{ConvertCalled};
ghost use Rattle.xts.specs.Xts.{xts};
ghost use Rattle.takeover.specs.Sources.{Taken, xts_source};

use numbers::Refusal;
use records::TEXT_MOST;
use sheets::Keys;
use store::add;

// Adds a data unit under XTS-AES, deciphered, as a sheet; 15, 16, then add's own. One longer than any text is not deciphered: add refuses it by its
// length.
pub fn add_xts(
    key: &[u8],
    number: u64,
    unit: &[u8],
    keys: Keys,
    store: &mut [u8],
    sheet: u32,
) -> Result<u32, Refusal>
    ensures { ConvertCalled keys.entry.old.now keys.entry.new.now store.old sheet
        (xts_source key.now number unit.now) result store.new }
{
    let l = unit.len();
    xts::tested(key.len(), l)?;
    if l > TEXT_MOST {
        return add(keys, store, sheet, unit);
    }
    let mut room = [0u8; TEXT_MOST];
    decipher_into(&mut room, key, number, unit);
    add(keys, store, sheet, &room[0..l])
}

// A unit that is not refused, and may be a text, deciphered to the front of the room.
fn decipher_into(room: &mut [u8; TEXT_MOST], key: &[u8], number: u64, unit: &[u8])
    requires { (Taken key.now unit.now) × (length unit.now ≤ text_most) }
    ensures { take (length unit.now) room.new ≡ xts true key.now number unit.now }
{
    let l = unit.len();
    room[0..l].copy_from_slice(unit);
    let _ = xts::decipher(key, number, &mut room[0..l]);
}
