// Closings: clauses that forbid a ring among the nodes that remain, by added variables of their
// own. No list of clauses is built: each is found by its number, in constant time.
#![tactic(auto)]

pub mod arc;
mod checking;
pub mod closing;
pub mod closure;
mod grid;
mod literals;
pub mod named;
pub mod numbers;
mod places;
mod reading;
pub mod remaining;
pub mod steps;
