#![tactic(auto)]

// Worked cases as theorems, and tests of the libraries on examples.
#[cfg(test)]
mod needs;
#[cfg(test)]
mod plans;
#[cfg(test)]
mod prefixes;
mod rows;
#[cfg(test)]
mod tables;

pub use rows::{fewest_cases_hold, worked_cases_hold};
