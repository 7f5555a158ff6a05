//! A processor with all that its worker needs.
ghost use Rattle.std.specs.Prelude.{◌≡◌, ◌≤◌, ◌<◌, ◌+◌, [], ◌++◌, length, map, All, IfOk, vec_capacity, vec_len};
ghost use Rattle.live_text.specs.Own.{AreSeated, TextState};
ghost use Rattle.module_image.specs.Layout.{IsStart};
ghost use Rattle.module_image.specs.Module.{Module, layout_of};
ghost use Rattle.live_engine.specs.LiveCpu.{new_cpu};
ghost use Rattle.live_engine.specs.LiveRun.{IsReady};

use crate::cpu::{LiveCpu, Turn};
use live_text::CpuSeat;
use poke_base::NoMemory;
use rand_core::SeedableRng;
use rand_xoshiro::SplitMix64;
use std::alloc::Global;

/// A processor with its seat, its words, and room for its walk.
#[derive(Drop)]
pub struct Job {
    /// The number of its worker: that of the processor and one.
    pub who: u8,
    /// Where the processor starts.
    pub entry: u64,
    pub cpu: LiveCpu,
    pub seat: CpuSeat,
    pub words: SplitMix64,
    pub walk: Vec<Turn>,
}

/// The processors that start at these entries, by number, each before its first turn and with room for so many. The words
/// of processor c are those of the seed `seed + c`.
///
/// # Errors
/// Out of memory.
pub fn jobs_of(
    alloc: Global,
    entries: &[u64],
    seats: Vec<CpuSeat>,
    turns: u32,
    seed: u64,
) -> Result<Vec<Job>, NoMemory>
    requires few { length entries.now ≤ 16 }
    requires count { vec_len seats ≡ length entries.now }
    ensures ready { (m : Module) (text : TextState) → All (IsStart (layout_of m)) entries.now → AreSeated text (vec_len seats) seats.items → IfOk result (λ jobs. All (IsReady m text turns) jobs.items) }
    ensures entries { IfOk result (λ jobs. map (λ job. job.entry) jobs.items ≡ entries.now) }
    ensures count { IfOk result (λ jobs. vec_len jobs ≡ length entries.now) }
{
    let mut jobs = Vec::with_capacity(alloc, entries.len())?;
    for seat in seats {
        let number = jobs.len();
        let job = job_of(alloc, number as u8, entries[number], seat, turns, seed)?;
        jobs.push_reserved(job);
    }
    Ok(jobs)
}

/// The processor with a number.
///
/// # Errors
/// Out of memory.
fn job_of(
    alloc: Global,
    number: u8,
    entry: u64,
    seat: CpuSeat,
    turns: u32,
    seed: u64,
) -> Result<Job, NoMemory>
    requires few { number < 16 }
    ensures seat { IfOk result (λ job. job.seat ≡ seat) }
    ensures entry { IfOk result (λ job. job.entry ≡ entry) }
    ensures cpu { IfOk result (λ job. job.cpu ≡ new_cpu entry) }
    ensures walk { IfOk result (λ job. job.walk.items ≡ []) }
    ensures room { IfOk result (λ job. turns ≤ vec_capacity job.walk) }
{
    let walk = Vec::with_capacity(alloc, turns as usize)?;
    Ok(Job {
        who: number + 1,
        entry,
        cpu: LiveCpu::new(entry),
        seat,
        words: SplitMix64::seed_from_u64(seed.wrapping_add(u64::from(number))),
        walk,
    })
}

/// Parts the walks from the seats. There is room for both.
pub fn part(jobs: Vec<Job>, walks: &mut Vec<Vec<Turn>>, seats: &mut Vec<CpuSeat>)
    requires walks_room { vec_len walks.old + vec_len jobs ≤ vec_capacity walks.old }
    requires seats_room { vec_len seats.old + vec_len jobs ≤ vec_capacity seats.old }
    ensures { walks.new.items ≡ walks.old.items ++ map (λ job. job.walk) jobs.items }
{
    for job in jobs {
        let Job { walk, seat, .. } = job;
        walks.push_reserved(walk);
        seats.push_reserved(seat);
    }
}
