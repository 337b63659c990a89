// T_star of the associated data (000, table 1, steps 1 to 11), always with Enc.
ghost use Rattle.std.specs.Prelude.{◌≡◌, false};
ghost use Rattle.block.specs.Xor.{◌⊕◌};
ghost use Rattle.aes.specs.Aes.{crypted};
ghost use Rattle.mode.specs.TStar.{eme2_t_star};

use aes::RoundKeys;
use block::{doubled, padded, xor};

// The xor of the blocks' TTs; of no data, Enc(Key3).
pub fn t_star(keys: RoundKeys, key3: [u8; 16], ad: &[u8]) -> [u8; 16]
    ensures { result ≡ eme2_t_star (crypted false keys.keys keys.rounds) key3 ad.now }
{
    if ad.is_empty() {
        return aes::crypt(false, keys, key3);
    }
    let (full, rest) = ad.as_chunks::<16>();
    let mut m = doubled(key3);
    let mut sum = [0u8; 16];
    for x in full {
        // By `more` and `next`: the check makes no proof of a call that takes the array that its result is laid in.
        let more = xor(sum, under(keys, m, *x));
        sum = more;
        let next = doubled(m);
        m = next;
    }
    if rest.is_empty() {
        return sum;
    }
    xor(sum, under(keys, doubled(m), padded(rest, 0)))
}

// Enc(m xor x) xor m. It is `unit`'s `under` the other way round, as 000 writes it: one for both would need a room below, and a law that xor commutes.
fn under(keys: RoundKeys, m: [u8; 16], x: [u8; 16]) -> [u8; 16]
    ensures { result ≡ crypted false keys.keys keys.rounds (m ⊕ x) ⊕ m }
{
    xor(aes::crypt(false, keys, xor(m, x)), m)
}
