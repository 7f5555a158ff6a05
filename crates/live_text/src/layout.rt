//! A plan laid out as numbers: the bytes of its sites, and the writes of its chunks, round by round.
ghost use Rattle.std.specs.Prelude.{◌≡◌, ◌≤◌, ◌<◌, ◌+◌, ◌*◌, ◌^◌, ◌++◌, [], ◌∷◌, length, map, drop, All, IfOk, OnOk};
ghost use Rattle.poke_batch.specs.Poke.{spelled, writes_from, traps, tails, firsts};
ghost use Rattle.live_text.specs.Flat.{starts, place, placed, rounds, ends};
ghost use Rattle.live_text.specs.Layout.{AreRounds, Adds, AddsChunk, AreFirsts, IsInRow, row_from};

use crate::plan::LiveSite;
use crate::view::PlacedWrite;
use insn_forms::{Change, Form};
use poke_base::{CodeBytes, NoMemory};
use std::alloc::Global;

/// The byte writes of some rounds, and how many there are before each round and after the last.
#[derive(Drop)]
pub struct Rounds {
    pub writes: Vec<PlacedWrite>,
    pub cuts: Vec<u64>,
}

/// The number of each site's first byte, and the bytes of all sites.
///
/// # Errors
/// Out of memory.
pub fn bytes_of(alloc: Global, sites: &[LiveSite]) -> Result<(Vec<u64>, Vec<u8>), NoMemory>
    ensures firsts { IfOk result (λ made. AreFirsts sites.now made.0.items) }
    ensures bytes { IfOk result (λ made. made.1.items ≡ starts sites.now) }
{
    let mut firsts = Vec::new(alloc);
    let mut bytes = Vec::new(alloc);
    for site in sites {
        firsts.push(bytes.len() as u64)?;
        bytes.extend_from_slice(spelled(site.start, site.at).as_slice())?;
    }
    Ok((firsts, bytes))
}

/// The bytes of a form at an address, or none where its displacement doesn't reach its target.
fn spelled(form: Form, at: u64) -> CodeBytes
    ensures { result.items ≡ spelled form at }
{
    match form.encode(at) {
        Ok(code) => code,
        Err(_) => CodeBytes::new(),
    }
}

/// The number of the byte at an address.
fn place_of(sites: &[LiveSite], at: u64) -> u64
    requires { length sites.now < 2 ^ 32 }
    ensures place { result ≡ place sites.now at }
    ensures below { result ≤ 5 * length sites.now + 5 }
{
    let mut before = 0;
    for site in sites {
        let size = u64::from(site.start.size());
        let offset = at.saturating_sub(site.at);
        if offset < size {
            return before + offset;
        }
        before += size;
    }
    before
}

impl Rounds {
    /// No round.
    ///
    /// # Errors
    /// Out of memory.
    fn new(alloc: Global) -> Result<Rounds, NoMemory>
        ensures { IfOk result (λ made. (made.writes.items ≡ []) × (made.cuts.items ≡ ends 0 [])) }
    {
        let writes = Vec::new(alloc);
        let mut cuts = Vec::new(alloc);
        cuts.push(0)?;
        Ok(Rounds { writes, cuts })
    }

    /// Adds a write.
    ///
    /// # Errors
    /// Out of memory.
    fn put(&mut self, place: u64, byte: u8) -> Result<(), NoMemory>
        ensures writes { OnOk result (self.new.writes.items ≡ self.old.writes.items ++ record { place = place; byte = byte } ∷ []) }
        ensures cuts { OnOk result (self.new.cuts.items ≡ self.old.cuts.items) }
    {
        self.writes.push(PlacedWrite { place, byte })?;
        Ok(())
    }

    /// Ends a round.
    ///
    /// # Errors
    /// Out of memory.
    fn end(&mut self) -> Result<(), NoMemory>
        ensures writes { OnOk result (self.new.writes.items ≡ self.old.writes.items) }
        ensures cuts { OnOk result (self.new.cuts.items ≡ self.old.cuts.items ++ length self.old.writes.items ∷ []) }
    {
        let cut = self.writes.len() as u64;
        self.cuts.push(cut)?;
        Ok(())
    }

    /// Adds the round of breakpoints of a chunk.
    ///
    /// # Errors
    /// Out of memory.
    fn add_traps(&mut self, sites: &[LiveSite], chunk: &[Change]) -> Result<(), NoMemory>
        requires { length sites.now < 2 ^ 32 }
        ensures { OnOk result (Adds sites.now (traps chunk.now) self.old self.new) }
    {
        for change in chunk {
            self.put(place_of(sites, change.at), 0xcc)?;
        }
        self.end()
    }

    /// Adds the writes of a row of bytes.
    ///
    /// # Errors
    /// Out of memory.
    fn put_row(&mut self, place: u64, bytes: &[u8]) -> Result<(), NoMemory>
        requires { place + length bytes.now < 2 ^ 64 }
        ensures writes { OnOk result (self.new.writes.items ≡ self.old.writes.items ++ row_from place bytes.now) }
        ensures cuts { OnOk result (self.new.cuts.items ≡ self.old.cuts.items) }
    {
        let mut next = place;
        for byte in bytes {
            self.put(next, *byte)?;
            next += 1;
        }
        Ok(())
    }

    /// Adds the round of tails of a chunk.
    ///
    /// # Errors
    /// Out of memory.
    fn add_tails(&mut self, sites: &[LiveSite], chunk: &[Change]) -> Result<(), NoMemory>
        requires few { length sites.now < 2 ^ 32 }
        requires rows { All (IsInRow sites.now) chunk.now }
        ensures { OnOk result (Adds sites.now (tails chunk.now) self.old self.new) }
    {
        for change in chunk {
            self.put_tail(sites, change)?;
        }
        self.end()
    }

    /// Adds the writes of the new bytes of a site but its first.
    ///
    /// # Errors
    /// Out of memory.
    fn put_tail(&mut self, sites: &[LiveSite], change: &Change) -> Result<(), NoMemory>
        requires few { length sites.now < 2 ^ 32 }
        requires row { IsInRow sites.now change.now }
        ensures writes { OnOk result (self.new.writes.items ≡ self.old.writes.items ++ map (placed sites.now) (writes_from (change.now.at + 1) (drop 1 (spelled change.now.new change.now.at)))) }
        ensures cuts { OnOk result (self.new.cuts.items ≡ self.old.cuts.items) }
    {
        let code = spelled(change.new, change.at);
        let place = place_of(sites, change.at);
        match code.as_slice().split_first() {
            Some((_, tail)) => self.put_row(place + 1, tail),
            None => Ok(()),
        }
    }

    /// Adds the round of first bytes of a chunk.
    ///
    /// # Errors
    /// Out of memory.
    fn add_firsts(&mut self, sites: &[LiveSite], chunk: &[Change]) -> Result<(), NoMemory>
        requires few { length sites.now < 2 ^ 32 }
        requires rows { All (IsInRow sites.now) chunk.now }
        ensures { OnOk result (Adds sites.now (firsts chunk.now) self.old self.new) }
    {
        for change in chunk {
            let code = spelled(change.new, change.at);
            let first = code.as_slice().first().copied().unwrap_or(0);
            self.put(place_of(sites, change.at), first)?;
        }
        self.end()
    }

    /// Adds the three rounds of a chunk.
    ///
    /// # Errors
    /// Out of memory.
    fn add_chunk(&mut self, sites: &[LiveSite], chunk: &[Change]) -> Result<(), NoMemory>
        requires few { length sites.now < 2 ^ 32 }
        requires rows { All (IsInRow sites.now) chunk.now }
        ensures { OnOk result (AddsChunk sites.now chunk.now self.old self.new) }
    {
        self.add_traps(sites, chunk)?;
        self.add_tails(sites, chunk)?;
        self.add_firsts(sites, chunk)
    }
}

/// The rounds of all chunks.
///
/// # Errors
/// Out of memory.
pub fn rounds_of(
    alloc: Global,
    sites: &[LiveSite],
    chunks: &[Vec<Change>],
) -> Result<Rounds, NoMemory>
    requires few { length sites.now < 2 ^ 32 }
    requires rows { All (λ chunk. All (IsInRow sites.now) chunk.items) chunks.now }
    ensures { IfOk result (AreRounds sites.now (rounds (map (λ chunk. chunk.items) chunks.now))) }
{
    let mut made = Rounds::new(alloc)?;
    for chunk in chunks {
        made.add_chunk(sites, chunk)?;
    }
    Ok(made)
}
