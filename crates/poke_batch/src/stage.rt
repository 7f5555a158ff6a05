//! How far an update has come.
ghost use Rattle.poke_batch.specs.Stage.{after_due, after_chunk, after_sync, tail_after, IsInside};
ghost use Rattle.poke_batch.specs.Inside.{change_of, due_in};
ghost use Rattle.poke_batch.specs.Patch.{IsSpelt};
ghost use Rattle.std.specs.Prelude.{◌≡◌, ◌≤◌, ◌<◌, false, All, length, map, take, drop};

use crate::batch::Due;
use crate::patch::Patch;

/// What is written into the first byte of a site while its other bytes change.
const INT3: u8 = 0xcc;

/// How many sites are poked together, as many as Linux keeps in a page.
const CHUNK: usize = 256;

/// The rounds of a poke. After each of them all processors have to serialise.
#[derive(Clone, Copy)]
pub enum Round {
    /// INT3 into the first bytes.
    Traps,
    /// The new bytes but the first.
    Tails,
    /// The new first bytes.
    Firsts,
}

/// What is due next in the open chunk, whose sites are numbered from 0.
#[derive(Clone, Copy)]
pub enum Stage {
    /// No update is open.
    Idle,
    /// INT3 is to be written into the first byte of this site.
    Trap(usize),
    /// The new byte at a place of a site is to be written. It isn't the first.
    Tail { site: usize, place: u8 },
    /// The new first byte of this site is to be written.
    First(usize),
    /// All processors are to serialise after a round, and they may have been asked to.
    Sync { round: Round, requested: bool },
    /// The update is to be closed.
    Return,
}

/// How far an update has come.
#[derive(Clone, Copy)]
pub struct Progress {
    /// How many sites there are before the open chunk.
    pub from: usize,
    /// What is due next in the open chunk.
    pub stage: Stage,
}

impl Stage {
    /// What is due at the stage, in this chunk.
    pub fn due(self, chunk: &[Patch]) -> Due
        requires inside { IsInside (map change_of chunk.now) self }
        requires spelt { All IsSpelt chunk.now }
        ensures { result ≡ due_in self (map change_of chunk.now) }
    {
        match self {
            Stage::Idle => Due::Idle,
            Stage::Trap(site) => Due::Write {
                at: chunk[site].change.at,
                byte: INT3,
            },
            Stage::Tail { site, place } => chunk[site].write_at(place),
            Stage::First(site) => chunk[site].write_at(0),
            Stage::Sync {
                requested: false,
                ..
            } => Due::Request,
            Stage::Sync {
                requested: true,
                ..
            } => Due::Wait,
            Stage::Return => Due::Return,
        }
    }

    /// The stage after the due write, request or return, in this chunk.
    pub fn after_due(self, chunk: &[Patch]) -> Stage
        requires { IsInside (map change_of chunk.now) self }
        ensures { result ≡ after_due (map change_of chunk.now) self }
    {
        let sites = chunk.len();
        match self {
            Stage::Trap(site) => {
                if site + 1 < sites {
                    Stage::Trap(site + 1)
                } else {
                    sync_after(Round::Traps)
                }
            }
            Stage::Tail { site, place } => {
                if place + 1 < chunk[site].change.new.size() {
                    Stage::Tail {
                        site,
                        place: place + 1,
                    }
                } else {
                    tail_after(site, sites)
                }
            }
            Stage::First(site) => {
                if site + 1 < sites {
                    Stage::First(site + 1)
                } else {
                    sync_after(Round::Firsts)
                }
            }
            Stage::Sync { round, .. } => Stage::Sync {
                round,
                requested: true,
            },
            Stage::Return | Stage::Idle => Stage::Idle,
        }
    }
}

impl Progress {
    /// The open chunk of the patches of an update.
    pub fn chunk(self, patches: &[Patch]) -> &[Patch]
        requires { self.from ≤ length patches.now }
        ensures { result.now ≡ take 256 (drop self.from patches.now) }
    {
        let rest = &patches[self.from..];
        &rest[..rest.len().min(CHUNK)]
    }

    /// How far the update of n sites has come after all processors have serialised.
    pub fn after_sync(self, sites: usize) -> Progress
        requires { self.from ≤ sites }
        ensures { result ≡ after_sync sites self.from self.stage }
    {
        match self.stage {
            Stage::Sync { round, .. } => match round {
                Round::Traps => self.at(Stage::Tail { site: 0, place: 1 }),
                Round::Tails => self.at(Stage::First(0)),
                Round::Firsts => self.after_chunk(sites),
            },
            _ => self,
        }
    }

    /// The first write of the next chunk, or the return after the last one.
    fn after_chunk(self, sites: usize) -> Progress
        requires { self.from ≤ sites }
        ensures { result ≡ after_chunk sites self.from }
    {
        if sites - self.from > CHUNK {
            Progress {
                from: self.from + CHUNK,
                stage: Stage::Trap(0),
            }
        } else {
            self.at(Stage::Return)
        }
    }

    /// Another stage of the open chunk.
    fn at(self, stage: Stage) -> Progress
        ensures { result ≡ record self { stage = stage } }
    {
        Progress { stage, ..self }
    }
}

/// The tail of the site after this one, or the synchronisation after that of the last of n sites.
fn tail_after(site: usize, sites: usize) -> Stage
    requires { site < sites }
    ensures { result ≡ tail_after site sites }
{
    if site + 1 < sites {
        Stage::Tail {
            site: site + 1,
            place: 1,
        }
    } else {
        sync_after(Round::Tails)
    }
}

/// The synchronisation after a round. It wasn't requested yet.
fn sync_after(round: Round) -> Stage
    ensures { result ≡ Stage.Sync round false }
{
    Stage::Sync {
        round,
        requested: false,
    }
}
