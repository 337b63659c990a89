// The pass in which a mode masks all full blocks of a text, each with twice the mask of the block before it.
ghost use Rattle.std.specs.Prelude.{◌≡◌};
ghost use Rattle.block.specs.Blocks.{full, on_blocks};
ghost use Rattle.block.specs.Double.{doubles};
ghost use Rattle.field.specs.Masks.{masked};

// Each full block of s xored with its mask: l for the first, twice the one before for each next. The bytes after them are kept. The mask
// that a next block would have is returned. (Apart from `wide`'s walk: see there.)
pub fn mask(s: &mut [u8], l: [u8; 16]) -> [u8; 16]
    ensures { (result ≡ doubles (full s.old) l) × (s.new ≡ on_blocks (masked l) s.old) }
{
    let mut m = l;
    // By the blocks' numbers: of what is written through the chunks that std lends (`as_chunks_mut`) a proof knows nothing.
    for k in 0..s.len() / 16 {
        let x = block::load(s, 16 * k);
        block::put(s, 16 * k, block::xor(x, m));
        // By `next`: the check makes no proof of a call that takes the array that its result is laid in.
        let next = block::doubled(m);
        m = next;
    }
    m
}
