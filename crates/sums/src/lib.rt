// Right sums: what they are, the sums over eight and over 64 leaf bits, and one leaf bit changed under right sums.
#![tactic(auto)]

pub mod sevens; // the seven sums over eight leaf bits
pub mod sixes; // the six rows of sums over 64 leaf bits
pub mod along; // one leaf bit changed, and the sums along its path

pub use along::put_leaf;
