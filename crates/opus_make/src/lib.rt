//! Packets made from a number: the same seed gives the same packets, of all configurations and codes, so that an input of
//! any size can be made again. The rule is this project's.
#![tactic(auto)]

mod draw_form;
mod draw_plan;
mod draws;
mod form;
pub mod laws;
mod made;
mod maker;
mod plan;
mod ramp;
mod written;

pub use made::Made;
pub use maker::Maker;
