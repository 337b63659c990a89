// FIPS 197, 5.1.1: the affine step after the inverse, and the step undone (5.3.2), as gates between bit planes.
ghost use Rattle.std.specs.Prelude.{◌≡◌, ◌∷◌};
ghost use Rattle.bits.specs.Planes.{words};
ghost use Rattle.sbox.specs.Gates.{stage, ones};
ghost use Rattle.sbox.specs.AffineGates.{affine_gates, affine_outs, unaffine_gates, unaffine_outs};

use bits::BitPlanes;

// The affine step: 19 gates. The four that turn a bit over are the constant 63 hex: xor with ones and no `!`, as the data has them.
pub fn affine(q: BitPlanes) -> BitPlanes
    ensures { words result ≡ stage affine_gates affine_outs (ones ∷ words q) }
{
    let a0 = q.p6 ^ q.p7;
    let a1 = q.p3 ^ q.p4;
    let a2 = q.p1 ^ q.p2;
    let a3 = q.p5 ^ a1;
    let s5 = a2 ^ a3;
    let s7 = a0 ^ a3;
    let a4 = q.p0 ^ a2;
    let s2 = a0 ^ a4;
    let s4 = a1 ^ a4;
    let a5 = q.p2 ^ s7;
    let s1 = s4 ^ a5;
    let s6 = q.p7 ^ a5;
    let a6 = q.p3 ^ s2;
    let s0 = s5 ^ a6;
    let s3 = q.p6 ^ a6;
    let n0 = s0 ^ 0xffff_ffff;
    let n1 = s1 ^ 0xffff_ffff;
    let n5 = s5 ^ 0xffff_ffff;
    let n6 = s6 ^ 0xffff_ffff;
    BitPlanes {
        p0: n0,
        p1: n1,
        p2: s2,
        p3: s3,
        p4: s4,
        p5: n5,
        p6: n6,
        p7: s7,
    }
}

// The affine step undone: 14 gates.
pub fn unaffine(q: BitPlanes) -> BitPlanes
    ensures { words result ≡ stage unaffine_gates unaffine_outs (ones ∷ words q) }
{
    let a0 = q.p0 ^ q.p5;
    let s3 = q.p2 ^ a0;
    let s6 = q.p3 ^ a0;
    let a1 = q.p3 ^ q.p6;
    let s1 = q.p0 ^ a1;
    let s4 = q.p1 ^ a1;
    let a2 = q.p1 ^ q.p4;
    let s2 = q.p7 ^ a2;
    let s7 = q.p6 ^ a2;
    let a3 = q.p2 ^ q.p7;
    let s0 = q.p5 ^ a3;
    let s5 = q.p4 ^ a3;
    let n0 = s0 ^ 0xffff_ffff;
    let n2 = s2 ^ 0xffff_ffff;
    BitPlanes {
        p0: n0,
        p1: s1,
        p2: n2,
        p3: s3,
        p4: s4,
        p5: s5,
        p6: s6,
        p7: s7,
    }
}
