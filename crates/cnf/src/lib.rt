// Clauses, formulas and sinks: what tells clauses, what takes them, and what is done with either.
#![tactic(auto)]

pub mod form;
pub mod formula;
pub mod lent;
pub mod meeting;
pub mod refusal;
pub mod sink;
pub mod writing;
