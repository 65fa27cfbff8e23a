// Routes, tables of them, and longest-prefix match.
#![tactic(auto)]

mod edit;
mod laws;
mod limits;
mod lookups;
mod lpm;
mod route;
mod search;
mod table;

pub use laws::{
    change_is_local, change_keeps_sound, lines_decide, lookup_is_longest, lookup_is_topmost,
    order_is_free, tables_are_sound, tables_by_example,
};
pub use limits::{DEVICE_LIMIT, WANTED_LIMIT};
pub use lookups::Match;
pub use route::{NextHop, Route};
pub use table::Table;
