//! A module and a script as a running machine: which event comes next, and what each event does and shows.
#![tactic(auto)]

mod acted;
mod lines;
mod pick;
mod progress;
mod updater;
mod words;
mod world;

pub use acted::Acted;
pub use words::Words;
pub use world::World;
