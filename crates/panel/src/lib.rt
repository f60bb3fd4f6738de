// Panels: what a panel means, and the call `judge`.
#![tactic(auto)]

pub mod judging; // the depth of a length and of a good panel, and the call `judge`
pub mod sizes; // the length of a panel

pub use judging::judge;
pub use sizes::size;
