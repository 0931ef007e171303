//! A run that goes by written events, in any interleaving, over the same serial state.
#![tactic(auto)]

mod applying;
pub mod event_fault;
mod refused_event;
mod scene;
mod seat;
mod slot;
mod stepped_segment;
mod turns;
pub mod world;

pub use event_fault::EventFault;
pub use refused_event::RefusedEvent;
pub use world::World;
