//! Runs that are recorded in a journal while they are shown, and journals that are replayed.
#![tactic(auto)]

mod ending;
mod fault;
mod laws;
mod recording;
mod replaying;
mod show;
mod tracing;

pub use fault::RunFault;
pub use laws::{
    legal_journals_are_replayed, legal_runs_are_whole, replays_are_one, runs_are_replayed,
    tallies_are_one,
};
pub use recording::run;
pub use replaying::replay;
pub use tracing::Dropped;
