// The gate exchange on the expansion link: the asking end, the responding end, and the steps of an address along the chain of boards.
#![tactic(auto)]

mod asking;
mod chain;
mod kind;
mod responding;

pub use asking::{Asked, Exchange};
pub use chain::{step_down, step_up};
pub use kind::Kind;
pub use responding::{Reply, Responder, Response};
