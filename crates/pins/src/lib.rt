// Pin bits behind the words of a tree of sums, one for each leaf bit.
#![tactic(auto)]

pub mod places; // where a leaf's pin is, reading it and setting it
pub mod testing; // whether every pin lies on a leaf bit
pub mod keeping; // keeping the pins that do, and no other

pub use keeping::keep_on_leaves;
pub use places::{leaf_place, pin, put_pin};
pub use testing::pins_on_leaves;
