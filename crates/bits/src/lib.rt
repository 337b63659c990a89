// Bytes as planes of bits, and back: 32 bytes in eight words, bit i of each byte in word i, so that a gate between two words is that gate
// for 32 bytes at once, with no branch and no place that depends on them.
//
// Contracts cite `specs/`: `byte_at` (Planes) for one of the 32 bytes, `Spread` for what a group of four planes has of a slice's bytes.
#![tactic(auto)]

ghost use Rattle.std.specs.Prelude.{◌≡◌, ◌+◌, ◌*◌, ◌≤◌, ◌<◌, length};
ghost use Rattle.block.specs.Tab.{byte};
ghost use Rattle.bits.specs.Planes.{words, planes, with_planes, OverPlanes};

// How bytes are turned into planes of bits, all 32 or one in eight of them.
mod turn;

pub use turn::{gather, gather_block, merged, shifted, spread, spread_block};

// Bit i of 32 bytes in word i. Fields and no array: the gates of the layers above are straight-line programs that read words by name.
#[derive(Clone, Copy)]
pub struct BitPlanes {
    pub p0: u32,
    pub p1: u32,
    pub p2: u32,
    pub p3: u32,
    pub p4: u32,
    pub p5: u32,
    pub p6: u32,
    pub p7: u32,
}

// A group is 32 words, planes t, t + 4, .. t + 28 for each t below 4: a gate between the four planes is then one between words that lie side by
// side. The planes at t.
pub fn planes_at(group: &[u32; 32], t: usize) -> BitPlanes
    requires { t < 4 }
    ensures { result ≡ planes group.now t }
{
    BitPlanes {
        p0: group[t],
        p1: group[t + 4],
        p2: group[t + 8],
        p3: group[t + 12],
        p4: group[t + 16],
        p5: group[t + 20],
        p6: group[t + 24],
        p7: group[t + 28],
    }
}

// Puts planes in the place of those at t.
pub fn put_planes(group: &mut [u32; 32], t: usize, q: BitPlanes)
    requires { t < 4 }
    ensures { group.new ≡ with_planes group.old t (words q) }
{
    group[t] = q.p0;
    group[t + 4] = q.p1;
    group[t + 8] = q.p2;
    group[t + 12] = q.p3;
    group[t + 16] = q.p4;
    group[t + 20] = q.p5;
    group[t + 24] = q.p6;
    group[t + 28] = q.p7;
}

// Puts f of them in the place of each planes of the group. By place: the planes at t lie four words apart, so no iterator over the group gives it.
pub fn over_planes<F: Fn(BitPlanes) -> BitPlanes>(group: &mut [u32; 32], f: F)
    requires { F.IsAlwaysCallable f }
    ensures { OverPlanes (F.post f) group.old group.new }
{
    for t in 0..4 {
        put_planes(group, t, f(planes_at(group, t)));
    }
}
