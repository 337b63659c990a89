// Powers of alpha.
ghost use Rattle.std.specs.Prelude.{◌≡◌};
ghost use Rattle.field.specs.Elements.{power};

use super::products::product;

// Alpha^k, found by halving k (02, order 3): the square of alpha^(k/2), and twice that where k is odd.
pub fn power(k: u64) -> [u8; 16]
    ensures { result ≡ power k }
{
    if k == 0 {
        let mut one = [0u8; 16];
        one[0] = 1;
        return one;
    }
    let half = power(k / 2);
    let square = product(half, half);
    if k % 2 == 0 {
        return square;
    }
    block::doubled(square)
}
