// Node numbers: depth, limits, neighbours.
#![tactic(auto)]

pub mod numbers; // Node, LeafNumber, a node's depth, the limits
pub mod triples; // the neighbour triple
pub mod longside; // the edge neighbour alone

pub use longside::edge_of;
pub use numbers::{GREATEST_DEPTH, GREATEST_NODE, LEAST_DEPTH, LeafNumber, Node, depth, known};
pub use triples::{Triple, triple_of};
