// Working out the fewest lines: sets of next hops, needs, and what is written at a place and along an edge.
#![tactic(auto)]

mod choice;
mod edge;
mod hops;
mod need;

pub use choice::choose;
pub use edge::{Edge, EdgeRoutes};
pub use hops::HopSet;
pub use need::Need;
