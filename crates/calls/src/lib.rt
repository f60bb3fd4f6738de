// The public calls on a lent panel that judge it, then hand it on; `judge` stands in crate `panel`, `open` in `opening`.
#![tactic(auto)]

pub mod reading; // the calls `count`, `leaf_at`, `number_of`, `pinned` and `leaf_bits`
pub mod changing; // the calls `split`, `merge`, `pin` and `unpin`

pub use changing::{merge, pin, split, unpin};
pub use reading::{count, leaf_at, leaf_bits, number_of, pinned};
