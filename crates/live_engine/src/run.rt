//! Live runs.
ghost use Rattle.std.specs.Prelude.{◌≡◌, All, IfOk, map, true, vec_len};
ghost use Rattle.std.specs.List.{AllZip};
ghost use Rattle.live_text.specs.Own.{IsOwn};
ghost use Rattle.live_text.specs.Plan.{Stands};
ghost use Rattle.live_text.specs.Seats.{NoneDue};
ghost use Rattle.script_text.specs.Laws.{IsScriptOf};
ghost use Rattle.live_engine.specs.Crew.{IsCrew};
ghost use Rattle.live_engine.specs.LivePlan.{IsLivePlan, IsPlanOf, last_bytes};
ghost use Rattle.live_engine.specs.LiveRun.{IsDone, IsReady, IsRunOf};
ghost use Rattle.live_engine.specs.Walks.{IsWalk};

use crate::cpu::Turn;
use crate::gate::Gate;
use crate::job::{Job, jobs_of, part};
use crate::last::{last_bytes, most_turns};
use crate::patch::LivePatch;
use crate::plan::live_plan;
use crate::worker::{Patcher, patch_alone, patch_beside, run_cpus};
use live_text::laws::{bytes_go_by_phases, chunks_are_poked};
use live_text::{CpuSeat, LiveText, PatchSeat};
use module_image::Image;
use poke_base::NoMemory;
use script_text::Script;
use std::alloc::Global;
use std::thread::{Threads, join};

/// What a processor did: its turns, but for those in which it did no instruction.
pub type Walk = Vec<Turn>;

/// What a live run did.
#[derive(Drop)]
pub struct LiveRun {
    /// The walk of each processor, by number.
    pub walks: Vec<Walk>,
    /// The bytes of all patched sites, in order, after all updates.
    pub sites: Vec<u8>,
}

/// All that a run needs, in memory that was taken before it.
#[derive(Drop)]
pub(crate) struct Crew {
    pub(crate) text: LiveText,
    pub(crate) patcher: Patcher,
    pub(crate) jobs: Vec<Job>,
    /// The most turns that the patch worker needs alone.
    most: u64,
    /// What the sites hold in the end.
    last: Vec<u8>,
    /// Room for the walks, and for the seats.
    walks: Vec<Walk>,
    seats: Vec<CpuSeat>,
}

/// Runs a script's updates while its processors run, each on a thread of its own, as far as threads can be had.
///
/// The worker that patches and each processor do at most `turns` turns beside one another, and each passes the gate before
/// each of them; the processors then leave. Processor c draws its words from the SplitMix64 whose seed is `seed + c` modulo
/// 2^64. When all have returned, the worker that patches goes on alone, for at most one turn for each item of the plan and
/// for each processor at each request. What is then left of the plan is written to the sites' bytes. The script has to be
/// one of the module. All memory is taken before the first turn.
///
/// # Errors
/// Out of memory; nothing was run.
pub fn run_live<R: Threads + Sync, G: Gate + Sync>(
    rt: &R,
    alloc: Global,
    image: &Image,
    script: &Script,
    turns: u32,
    seed: u64,
    gate: &G,
) -> Result<LiveRun, NoMemory>
    requires { IsScriptOf image.now script.now }
    ensures { IfOk result (IsRunOf image.now script.now turns) }
{
    let crew = Crew::of(alloc, image, script, turns, seed)?;
    Ok(crew.run(rt, image, turns, gate))
}

impl Crew {
    /// All that a run of a script needs.
    ///
    /// # Errors
    /// Out of memory.
    pub(crate) fn of(
        alloc: Global,
        image: &Image,
        script: &Script,
        turns: u32,
        seed: u64,
    ) -> Result<Crew, NoMemory>
        requires { IsScriptOf image.now script.now }
        ensures crew { IfOk result (IsCrew image.now turns) }
        ensures plan { IfOk result (λ crew. IsPlanOf image.now script.now crew.text.plan) }
        ensures entries { IfOk result (λ crew. map (λ job. job.entry) crew.jobs.items ≡ script.now.entries) }
    {
        image.accepted();
        let entries = script.entries();
        let cpus = entries.len() as u8;
        let plan = live_plan(alloc, image, script)?;
        let last = last_bytes(alloc, &plan)?;
        let most = most_turns(&plan, cpus);
        let (text, seat, seats) = LiveText::new(alloc, plan, cpus)?;
        let jobs = jobs_of(alloc, entries, seats, turns, seed)?;
        let walks = Vec::with_capacity(alloc, entries.len())?;
        let seats = Vec::with_capacity(alloc, entries.len())?;
        let worker = LivePatch::new(cpus);
        Ok(Crew {
            text,
            patcher: Patcher { worker, seat },
            jobs,
            most,
            last,
            walks,
            seats,
        })
    }

    /// Runs them.
    fn run<R: Threads + Sync, G: Gate + Sync>(
        self,
        rt: &R,
        image: &Image,
        turns: u32,
        gate: &G,
    ) -> LiveRun
        requires { IsCrew image.now turns self }
        ensures walks { AllZip (λ job walk. IsWalk image.now self.text.plan job.entry turns walk.items) self.jobs.items result.walks.items }
        ensures sites { result.sites.items ≡ last_bytes self.text.plan }
    {
        let Crew {
            text,
            patcher,
            jobs,
            most,
            last,
            mut walks,
            mut seats,
        } = self;
        let shared = &text;
        let (mut patcher, jobs) = join(
            rt,
            move || -> Patcher
                requires { IsOwn shared.now patcher.seat × (patcher.worker ≡ shared.now.cpus) }
                ensures own { IsOwn shared.entry.now result.seat }
                ensures cpus { result.worker ≡ shared.entry.now.cpus }
            { patch_beside(shared, patcher, turns, gate) },
            move || -> Vec<Job>
                requires { IsLivePlan image.now shared.now.plan × All (IsReady image.now shared.now turns) jobs.items }
                ensures done { All (IsDone image.entry.now shared.entry.now.plan turns) result.items }
                ensures count { vec_len result ≡ vec_len jobs }
                ensures entries { AllZip (λ before after. after.entry ≡ before.entry) jobs.items result.items }
            { run_cpus(rt, image, shared, jobs, turns, gate) },
        );
        let finished = patch_alone(shared, &mut patcher, most);
        part(jobs, &mut walks, &mut seats);
        let Patcher { seat, .. } = patcher;
        let sites = sites_after(text, seat, seats, finished, last);
        LiveRun { walks, sites }
    }
}

/// What the sites hold in the end: what is left of the text where all chunks are done, and else what would be left then.
fn sites_after(
    text: LiveText,
    seat: PatchSeat,
    seats: Vec<CpuSeat>,
    finished: bool,
    last: Vec<u8>,
) -> Vec<u8>
    requires stands { Stands text.plan }
    requires own { IsOwn text seat }
    requires finished { finished ≡ true → NoneDue seat.view }
    requires last { last.items ≡ last_bytes text.plan }
    ensures { result.items ≡ last_bytes text.plan }
{
    chunks_are_poked();
    bytes_go_by_phases();
    let sites = text.finish(seat, seats);
    if finished {
        return sites;
    }
    last
}
