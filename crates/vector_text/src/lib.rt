// The lines of the programs of vectors: their words, the links that they name, the memory that calls are lent, and what is printed of an answer.
// The loop over a text's lines stands in each program: shared, it would take a closure, and ask of its caller that the closure may be called.
#![tactic(auto)]

pub mod input;
pub mod links;
pub mod memory;
pub mod print;
pub mod words;
