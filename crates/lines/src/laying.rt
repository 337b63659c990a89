// Bytes laid into a lent buffer one after another. A byte past the buffer's end is not written, and the place still moves on. So every call ends,
// and none goes through `write!`, whose contract says nothing of what was written where it answers an error. The buffer and the place are no
// struct: each call would owe, beside `Laid`, that the struct still holds the buffer that it was made of.
ghost use Rattle.std.specs.Prelude.{[], ◌∷◌, ◌+◌, ◌≤◌, ◌<◌, length};
ghost use Rattle.lines.specs.Laid.{room, Laid};

// One byte.
pub fn put(out: &mut [u8], at: usize, x: u8) -> usize
    requires { at < room }
    ensures { Laid (x ∷ []) at out.old result out.new }
{
    if at < out.len() {
        out[at] = x;
    }
    at + 1
}

// A text, byte by byte.
pub fn text(out: &mut [u8], at: usize, t: &[u8]) -> usize
    requires { at + length t.now ≤ room }
    ensures { Laid t.now at out.old result out.new }
{
    let mut next = at;
    for x in t {
        next = put(out, next, *x);
    }
    next
}
