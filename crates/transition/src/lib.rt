// Going over from one table to another: writes, plans of them, and no wrong moment.
#![tactic(auto)]

mod count;
mod laws;
mod pass;
mod refusal;
mod transition;
mod write;

pub use laws::{
    lines_are_bounded, near_misses_are_wrong, no_write_is_idle, no_wrong_moment, plan_ends_in_new,
    plan_is_prescribed, plan_is_smooth, plans_by_example, writes_are_local,
};
pub use refusal::Refusal;
pub use transition::Transition;
pub use write::Write;
