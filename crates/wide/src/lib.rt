// The wide block of 000 in place on a lent message, over AES in one direction, and T_star of the associated data.
//
// `wide` takes any L and T_star, so that a mode is a choice of these two: EME2 has Key2 and `t_star` under Key3. Both ensure the definitions of
// the crate `mode`, where it is proved, over any two functions that undo each other, that the wide block is undone and keeps the length.
#![tactic(auto)]

// T_star.
mod associated;
// The masks of the blocks after the first.
mod masks;
// The mixing between the passes.
mod mixing;
// The two passes, and the whole.
mod passes;

pub use associated::t_star;
pub use passes::wide;
