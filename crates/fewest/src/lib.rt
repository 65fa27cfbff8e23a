// The fewest lines: need, the prescribed table, and that no table whatever has fewer. These are definitions and theorems;
// the code that works needs out is in the crate above.
#![tactic(auto)]

mod along;
mod laws;

pub use along::Along;
pub use laws::{
    edges_are_short, fewest_by_example, near_misses_differ, need_is_kept, none_has_fewer,
    prescribed_is_right, sending_decides, trees_are_beginnings,
};
