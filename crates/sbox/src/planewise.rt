// The substitution and its inverse of all bytes of bit planes, by the field's rule.
ghost use Rattle.bits.specs.Planes.{words, Each, EachOf};
ghost use Rattle.sbox.specs.Sub.{sub, inv_sub};
ghost use Rattle.sbox.specs.Directions.{directed};

use super::affine_step::{affine, unaffine};
use super::field_inverse::{bottom, low_inverse, norm, products, top};
use bits::{BitPlanes, over_planes};

// The substitution: the inverse in the field, 0 kept, then the affine step.
fn substituted(q: BitPlanes) -> BitPlanes
    ensures { Each sub (words q) (words result) }
{
    let y = top(q);
    let u = low_inverse(norm(y));
    affine(bottom(products(u, y)))
}

// Its inverse: the step undone, then the same inverse in the field.
fn unsubstituted(q: BitPlanes) -> BitPlanes
    ensures { Each inv_sub (words q) (words result) }
{
    let y = top(unaffine(q));
    let u = low_inverse(norm(y));
    bottom(products(u, y))
}

// The substitution, or with `back` its inverse, of all bytes of a group of planes. Why the direction is a `bool`, `cipher::crypt` says.
pub fn substitute(back: bool, group: &mut [u32; 32])
    ensures { EachOf (directed back) group.old group.new }
{
    if back {
        over_planes(group, unsubstituted);
    } else {
        over_planes(group, substituted);
    }
}
