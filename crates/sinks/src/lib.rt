// Sinks: a table in lent buffers, and the layers that can be piled on every sink.
#![tactic(auto)]

pub mod guard;
pub mod layer;
pub mod offset;
pub mod table;
