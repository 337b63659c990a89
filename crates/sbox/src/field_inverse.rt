// The inverse in the byte field, 0 kept, as gates between bit planes: five parts, to be composed where they are used, since a function of
// all 115 gates with two callers is not inlined. `top` to `products` follow the straight-line program that Joan Boyar and Rene Peralta
// published for the substitution; `bottom`, which leaves the affine step out, was searched for anew.
//
// The names are those of that program. A part promises that it is the gates that `specs/InverseGates.antt` has for it; `proofs/GateRuleLaws`
// shows that the five together are the inverse.
ghost use Rattle.std.specs.Prelude.{◌≡◌, ◌++◌};
ghost use Rattle.bits.specs.Planes.{words};
ghost use Rattle.sbox.specs.Gates.{stage};
ghost use Rattle.sbox.specs.InverseGates.{sums, norms, lows, factors};
ghost use Rattle.sbox.specs.InverseGates.{top_gates, top_outs, norm_gates, norm_outs, low_gates, low_outs};
ghost use Rattle.sbox.specs.InverseGates.{product_gates, product_outs, bottom_gates, bottom_outs};

use bits::BitPlanes;

// Sums of a byte's bits, and bit 0 itself: what the field of 16 elements, over which the inverse is worked out, wants of the byte.
#[derive(Clone, Copy)]
pub struct Sums {
    pub x0: u32,
    pub y1: u32,
    pub y2: u32,
    pub y3: u32,
    pub y4: u32,
    pub y5: u32,
    pub y6: u32,
    pub y7: u32,
    pub y8: u32,
    pub y9: u32,
    pub y10: u32,
    pub y11: u32,
    pub y12: u32,
    pub y13: u32,
    pub y14: u32,
    pub y15: u32,
    pub y16: u32,
    pub y17: u32,
    pub y18: u32,
    pub y19: u32,
    pub y20: u32,
    pub y21: u32,
}

// The norm: an element of the field of 16.
#[derive(Clone, Copy)]
pub struct LowNorm {
    pub t21: u32,
    pub t22: u32,
    pub t23: u32,
    pub t24: u32,
}

// The norm's inverse there, and sums of its bits.
#[derive(Clone, Copy)]
pub struct LowInverse {
    pub t29: u32,
    pub t33: u32,
    pub t37: u32,
    pub t40: u32,
    pub t41: u32,
    pub t42: u32,
    pub t43: u32,
    pub t44: u32,
    pub t45: u32,
}

// Its products with the byte's sums.
#[derive(Clone, Copy)]
pub struct Factors {
    pub z0: u32,
    pub z1: u32,
    pub z2: u32,
    pub z3: u32,
    pub z4: u32,
    pub z5: u32,
    pub z6: u32,
    pub z7: u32,
    pub z8: u32,
    pub z9: u32,
    pub z10: u32,
    pub z11: u32,
    pub z12: u32,
    pub z13: u32,
    pub z14: u32,
    pub z15: u32,
    pub z16: u32,
    pub z17: u32,
}

// The sums of the byte's bits: 23 gates.
pub fn top(q: BitPlanes) -> Sums
    ensures { sums result ≡ stage top_gates top_outs (words q) }
{
    let y14 = q.p4 ^ q.p2;
    let y13 = q.p7 ^ q.p1;
    let y9 = q.p7 ^ q.p4;
    let y8 = q.p7 ^ q.p2;
    let t0 = q.p6 ^ q.p5;
    let y1 = t0 ^ q.p0;
    let y4 = y1 ^ q.p4;
    let y12 = y13 ^ y14;
    let y2 = y1 ^ q.p7;
    let y5 = y1 ^ q.p1;
    let y3 = y5 ^ y8;
    let t1 = q.p3 ^ y12;
    let y15 = t1 ^ q.p2;
    let y20 = t1 ^ q.p6;
    let y6 = y15 ^ q.p0;
    let y10 = y15 ^ t0;
    let y11 = y20 ^ y9;
    let y7 = q.p0 ^ y11;
    let y17 = y10 ^ y11;
    let y19 = y10 ^ y8;
    let y16 = t0 ^ y11;
    let y21 = y13 ^ y16;
    let y18 = q.p7 ^ y16;
    Sums {
        x0: q.p0,
        y1,
        y2,
        y3,
        y4,
        y5,
        y6,
        y7,
        y8,
        y9,
        y10,
        y11,
        y12,
        y13,
        y14,
        y15,
        y16,
        y17,
        y18,
        y19,
        y20,
        y21,
    }
}

// The norm: 23 gates.
pub fn norm(y: Sums) -> LowNorm
    ensures { norms result ≡ stage norm_gates norm_outs (sums y) }
{
    let t2 = y.y12 & y.y15;
    let t3 = y.y3 & y.y6;
    let t4 = t3 ^ t2;
    let t5 = y.y4 & y.x0;
    let t6 = t5 ^ t2;
    let t7 = y.y13 & y.y16;
    let t8 = y.y5 & y.y1;
    let t9 = t8 ^ t7;
    let t10 = y.y2 & y.y7;
    let t11 = t10 ^ t7;
    let t12 = y.y9 & y.y11;
    let t13 = y.y14 & y.y17;
    let t14 = t13 ^ t12;
    let t15 = y.y8 & y.y10;
    let t16 = t15 ^ t12;
    let t17 = t4 ^ t14;
    let t18 = t6 ^ t16;
    let t19 = t9 ^ t14;
    let t20 = t11 ^ t16;
    let t21 = t17 ^ y.y20;
    let t22 = t18 ^ y.y19;
    let t23 = t19 ^ y.y21;
    let t24 = t20 ^ y.y18;
    LowNorm { t21, t22, t23, t24 }
}

// The inverse in the field of 16: 21 gates.
pub fn low_inverse(t: LowNorm) -> LowInverse
    ensures { lows result ≡ stage low_gates low_outs (norms t) }
{
    let t25 = t.t21 ^ t.t22;
    let t26 = t.t21 & t.t23;
    let t27 = t.t24 ^ t26;
    let t28 = t25 & t27;
    let t29 = t28 ^ t.t22;
    let t30 = t.t23 ^ t.t24;
    let t31 = t.t22 ^ t26;
    let t32 = t31 & t30;
    let t33 = t32 ^ t.t24;
    let t34 = t.t23 ^ t33;
    let t35 = t27 ^ t33;
    let t36 = t.t24 & t35;
    let t37 = t36 ^ t34;
    let t38 = t27 ^ t36;
    let t39 = t29 & t38;
    let t40 = t25 ^ t39;
    let t41 = t40 ^ t37;
    let t42 = t29 ^ t33;
    let t43 = t29 ^ t40;
    let t44 = t33 ^ t37;
    let t45 = t42 ^ t41;
    LowInverse {
        t29,
        t33,
        t37,
        t40,
        t41,
        t42,
        t43,
        t44,
        t45,
    }
}

// The products with the byte's sums: 18 gates.
pub fn products(u: LowInverse, y: Sums) -> Factors
    ensures { factors result ≡ stage product_gates product_outs (lows u ++ sums y) }
{
    let z0 = u.t44 & y.y15;
    let z1 = u.t37 & y.y6;
    let z2 = u.t33 & y.x0;
    let z3 = u.t43 & y.y16;
    let z4 = u.t40 & y.y1;
    let z5 = u.t29 & y.y7;
    let z6 = u.t42 & y.y11;
    let z7 = u.t45 & y.y17;
    let z8 = u.t41 & y.y10;
    let z9 = u.t44 & y.y12;
    let z10 = u.t37 & y.y3;
    let z11 = u.t33 & y.y4;
    let z12 = u.t43 & y.y13;
    let z13 = u.t40 & y.y5;
    let z14 = u.t29 & y.y2;
    let z15 = u.t42 & y.y9;
    let z16 = u.t45 & y.y14;
    let z17 = u.t41 & y.y8;
    Factors {
        z0,
        z1,
        z2,
        z3,
        z4,
        z5,
        z6,
        z7,
        z8,
        z9,
        z10,
        z11,
        z12,
        z13,
        z14,
        z15,
        z16,
        z17,
    }
}

// The bits of the inverse: 30 gates.
pub fn bottom(z: Factors) -> BitPlanes
    ensures { words result ≡ stage bottom_gates bottom_outs (factors z) }
{
    let b0 = z.z6 ^ z.z15;
    let b1 = z.z12 ^ b0;
    let b2 = z.z13 ^ b1;
    let b3 = z.z16 ^ b2;
    let b4 = z.z8 ^ b3;
    let b5 = z.z2 ^ b4;
    let v4 = z.z0 ^ b5;
    let b6 = z.z5 ^ b4;
    let v7 = z.z3 ^ b6;
    let b7 = z.z3 ^ z.z4;
    let b8 = z.z1 ^ b7;
    let b9 = z.z7 ^ b7;
    let v1 = b3 ^ b9;
    let b10 = z.z11 ^ z.z17;
    let b11 = b5 ^ b8;
    let b12 = v4 ^ v7;
    let v2 = b11 ^ b12;
    let b13 = z.z14 ^ b11;
    let b14 = z.z10 ^ b13;
    let b15 = z.z11 ^ b14;
    let v5 = z.z13 ^ b15;
    let b16 = z.z9 ^ b10;
    let v0 = z.z15 ^ b16;
    let b17 = z.z6 ^ v5;
    let b18 = b3 ^ v0;
    let v6 = b17 ^ b18;
    let b19 = z.z10 ^ b9;
    let b20 = b10 ^ b19;
    let b21 = b2 ^ b20;
    let v3 = b12 ^ b21;
    BitPlanes {
        p0: v0,
        p1: v1,
        p2: v2,
        p3: v3,
        p4: v4,
        p5: v5,
        p6: v6,
        p7: v7,
    }
}
