// The wide block (000, table 1, steps 12 to 45) in place on a lent message, over AES in one direction: two passes over all full blocks,
// and the mixing between them.
ghost use Rattle.std.specs.Prelude.{◌≡◌, ◌≤◌, length};
ghost use Rattle.aes.specs.Aes.{crypted};
ghost use Rattle.mode.specs.Wide.{wide};

use super::mixing::mix;
use aes::RoundKeys;

// A message has a block at the least: no type says that of a slice, so each step asks for it.
//
// The message s becomes its wide block under L and T_star; with `back`, what it is the wide block of.
pub fn wide(back: bool, keys: RoundKeys, l: [u8; 16], t: [u8; 16], s: &mut [u8])
    requires { 16 ≤ length s.old }
    ensures { s.new ≡ wide (crypted back keys.keys keys.rounds) l t s.old }
{
    field::mask(s, l);
    aes::crypt_blocks(back, keys, s);
    mix(back, keys, t, s);
    aes::crypt_blocks(back, keys, s);
    field::mask(s, l);
}
