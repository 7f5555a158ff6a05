//! What the definitions of this crate mean in other words. The functions do nothing.
ghost use Rattle.poke_batch.specs.Laws.{ChunksAreChanges};

/// The chunks of an update, joined, are its changes, and each but the last has 256 of them. So the
/// items of an update are the pokes of such chunks, one after the other.
pub fn chunks_are_changes()
    ensures law { ChunksAreChanges }
{}
