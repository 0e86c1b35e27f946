// Sheets: nodes, the pipes drawn between them on valves, and the tokens that let their holders
// go on. Every fact that a sheet always keeps stands in its type.
#![tactic(auto)]

mod arcs;
pub mod drawing;
pub mod eliminating;
mod implications;
pub mod least;
pub mod making;
mod pair_table;
pub mod phase;
pub mod pipe;
pub mod place;
pub mod reading;
pub mod refusal;
pub mod starting;
pub mod token;
mod valve_table;
