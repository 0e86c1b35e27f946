// Judging measured valves: an order in which to start the nodes, or the ring that the open pipes
// hold.
#![tactic(auto)]

mod digraph;
pub mod independence;
mod marks;
pub mod open;
mod placing;
pub mod refusal;
pub mod report;
pub mod verdict;
mod walking;
