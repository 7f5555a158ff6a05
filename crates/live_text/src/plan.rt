//! What is patched while processors run.
use insn_forms::{Change, Form};

/// A site that is patched.
#[derive(Clone, Copy, Debug, PartialEq, Eq)]
pub struct LiveSite {
    /// The address of its first byte.
    pub at: u64,
    /// The form that it holds at the start.
    pub start: Form,
}

/// The sites, and the chunks of changes that are poked one after the other. A site's number is its
/// place in `sites`.
#[derive(Drop)]
pub struct LivePlan {
    pub sites: Vec<LiveSite>,
    pub chunks: Vec<Vec<Change>>,
}
