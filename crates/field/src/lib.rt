// The field of 2^128 elements (IEEE 1619-2007, 5.2; 000, 5.1), an element as a block: byte 0 the low end, alpha the element 2, by which `block::doubled`
// multiplies. Modes mask block j of a text by an element times alpha^j, all blocks in one pass (`mask`) or one of them alone (`power`, `product`).
#![tactic(auto)]

// The masks of all full blocks of a slice.
mod masks;
// Powers of alpha.
mod powers;
// Products of two elements.
mod products;

pub use masks::mask;
pub use powers::power;
pub use products::product;
