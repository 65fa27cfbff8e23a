// What examples, tests and benchmarks work on: lines written short, tables of them, numbers that look random, check sums.
#![tactic(auto)]

mod check_sum;
mod lines;
mod numbers;

pub use check_sum::CheckSum;
pub use lines::{Line, route, table_of};
pub use numbers::Numbers;
