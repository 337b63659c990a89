// Bytes for the programs that run the calls: patterns to fill what is lent with, and a number that tells messages and stores apart.
#![tactic(auto)]

ghost use Rattle.std.specs.Prelude.{true, false, ◌≡◌, ◌<◌};
ghost use Rattle.patterns.specs.Pattern.{pattern_byte, Pattern};
ghost use Rattle.patterns.specs.Digest.{digest_step, digest_from};

// The pattern that goes on by `by` from `from`, over the whole slice. The two are no struct: each caller writes both as numbers once.
pub fn fill(s: &mut [u8], by: usize, from: usize)
    ensures { Pattern by from s.new }
{
    for (i, x) in s.iter_mut().enumerate() {
        *x = pattern(by, from, i);
    }
}

// Whether a slice is that pattern.
pub fn is_pattern(s: &[u8], by: usize, from: usize) -> bool
    ensures { (result ≡ true → Pattern by from s.now) × (result ≡ false → Pattern by from s.now → ⊥) }
{
    s.iter()
        .enumerate()
        .all(|(i, x)| *x == pattern(by, from, i))
}

// Byte i of a pattern. It goes on by one more each 256 bytes, so that it does not begin anew there.
fn pattern(by: usize, from: usize, i: usize) -> u8
    ensures { result ≡ pattern_byte by from i }
{
    (((i % 256) * (by % 256) + i / 256 + from % 256) % 256) as u8
}

// A number that tells slices apart. No `fold`: the step asks for a bound, which a closure would have to show of every state.
pub fn digest(s: &[u8]) -> u64
    ensures { result ≡ digest_from 0 s.now }
{
    let mut h = 0;
    for x in s {
        h = digest_step(h, *x);
    }
    h
}

fn digest_step(h: u64, x: u8) -> u64
    requires { h < 2147483647 }
    ensures { result ≡ digest_step h x }
{
    (h * 257 + x as u64 + 1) % 2147483647
}
