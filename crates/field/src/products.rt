// Products of two elements.
ghost use Rattle.std.specs.Prelude.{◌≡◌, ◌<◌, eqb};
ghost use Rattle.field.specs.Elements.{only_if, product};

use block::{doubled, xor};

// a times b: the sum of b's doublings over the bits of a, the lowest first. No branch goes by a bit of either.
pub fn product(a: [u8; 16], b: [u8; 16]) -> [u8; 16]
    ensures { result ≡ product a b }
{
    let mut sum = [0u8; 16];
    let mut m = b;
    for n in 0..128 {
        // By `more` and `next`: the check makes no proof of a call that takes the array that its result is laid in.
        let more = xor(sum, only_if((a[n / 8] >> (n % 8)) % 2, m));
        sum = more;
        let next = doubled(m);
        m = next;
    }
    sum
}

// b where the bit t is 1, and else the element 0: each byte times the bit.
fn only_if(t: u8, b: [u8; 16]) -> [u8; 16]
    requires { t < 2 }
    ensures { result ≡ only_if (eqb t 1) b }
{
    std::array::from_fn(|i| b[i] * t)
}
