//! What the seats at the table know. But for `PlacedWrite` no value of these types is made: they are
//! for contracts alone.
use std::collections::LinkedList;

/// A write of one byte of the sites, by the byte's number.
#[derive(Clone, Copy, Debug, PartialEq, Eq)]
pub struct PlacedWrite {
    /// The number of the byte among those of all sites.
    pub place: u64,
    /// What is written.
    pub byte: u8,
}

/// A plan as numbers.
pub struct Shape {
    /// How many processors there are.
    pub cpus: u64,
    /// The bytes of the sites at the start, site by site.
    pub starts: LinkedList<u64>,
    /// The byte writes of all chunks, in order.
    pub writes: LinkedList<PlacedWrite>,
    /// At r the number of writes before request r; the last is the number of all writes.
    pub cuts: LinkedList<u64>,
}

/// What the patch seat knows.
pub struct PatchView {
    /// How many writes it has stored.
    pub done: u64,
    /// How many requests it has stored.
    pub stored: u64,
    /// The acknowledgement of each processor that it loaded last.
    pub bounds: LinkedList<u64>,
    /// How many acknowledgements it has loaded.
    pub asks: u64,
    /// How many seats were split off from it.
    pub split: u64,
}

/// What a processor's seat knows.
pub struct CpuView {
    /// The processor's number.
    pub number: u64,
    /// Its acknowledgement.
    pub ack: u64,
    /// Whether it has left.
    pub left: bool,
    /// The greatest generation that it has loaded.
    pub greatest: u64,
    /// How many of the plan's writes it knows to be stored.
    pub known: u64,
    /// How many it knew when it last emptied its cache.
    pub mark: u64,
    /// The byte that it has cached of each byte of the sites.
    pub cache: LinkedList<Option<u64>>,
    /// How many bytes it has loaded.
    pub fetches: u64,
    /// How many generations it has loaded.
    pub looks: u64,
}

/// Whose seat it is.
pub enum Role {
    Patch,
    Cpu,
}

/// What a seat knows: the plan, and what its own role has.
pub struct View {
    pub role: Role,
    pub shape: Shape,
    pub patch: PatchView,
    pub cpu: CpuView,
}
