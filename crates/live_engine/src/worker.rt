//! The workers, each of which runs on a thread of its own.
ghost use Rattle.std.specs.Prelude.{◌≡◌, ◌<◌, ◌+◌, true, false, All, vec_capacity, vec_len};
ghost use Rattle.std.specs.List.{AllZip};
ghost use Rattle.std.specs.Thread.{IsSync};
ghost use Rattle.live_text.specs.Own.{IsOwn};
ghost use Rattle.live_text.specs.Seats.{NoneDue};
ghost use Rattle.live_engine.specs.LivePlan.{IsLivePlan};
ghost use Rattle.live_engine.specs.LiveRun.{IsDone, IsReady};

use crate::cpu::Turn;
use crate::gate::Gate;
use crate::job::Job;
use crate::laws::new_cpus_are_paired;
use crate::patch::{Advance, LivePatch};
use live_text::{LiveText, PatchSeat};
use module_image::Image;
use rand_core::utils::NextWord;
use std::thread::{Threads, join};

/// The worker that patches, with its seat.
#[derive(Drop)]
pub struct Patcher {
    pub worker: LivePatch,
    pub seat: PatchSeat,
}

/// Patches, in at most so many turns, until all chunks are done. Worker 0 passes the gate before each turn.
pub fn patch_beside<G: Gate>(text: &LiveText, mut patcher: Patcher, turns: u32, gate: &G) -> Patcher
    requires own { IsOwn text.now patcher.seat }
    requires cpus { patcher.worker ≡ text.now.cpus }
    ensures own { IsOwn text.now result.seat }
    ensures cpus { result.worker ≡ text.now.cpus }
{
    for turn in 0..turns {
        gate.pass(0, turn + 1);
        if let Advance::Finished = patcher.worker.advance(text, &mut patcher.seat) {
            break;
        }
    }
    patcher
}

/// Patches alone, in at most so many turns. Whether all chunks are done.
pub fn patch_alone(text: &LiveText, patcher: &mut Patcher, turns: u64) -> bool
    requires own { IsOwn text.now patcher.old.seat }
    requires cpus { patcher.old.worker ≡ text.now.cpus }
    ensures own { IsOwn text.now patcher.new.seat }
    ensures finished { result ≡ true → NoneDue patcher.new.seat.view }
{
    for _ in 0..turns {
        if let Advance::Finished = patcher.worker.advance(text, &mut patcher.seat) {
            return true;
        }
    }
    false
}

/// Runs a processor for so many turns; then it leaves. Its worker passes the gate before each turn.
pub fn run_cpu<G: Gate>(image: &Image, text: &LiveText, mut job: Job, turns: u32, gate: &G) -> Job
    requires plan { IsLivePlan image.now text.now.plan }
    requires ready { IsReady image.now text.now turns job }
    ensures done { IsDone image.now text.now.plan turns result }
    ensures entry { result.entry ≡ job.entry }
{
    image.accepted();
    new_cpus_are_paired();
    for turn in 0..turns {
        gate.pass(job.who, turn + 1);
        let word = job.words.next_word();
        match job.cpu.turn(image, text, &mut job.seat, word) {
            Turn::Trapped | Turn::Still => {}
            done @ (Turn::Ran(_) | Turn::Pass { .. }) => job.walk.push_reserved(done),
        }
    }
    text.leave(&mut job.seat);
    job
}

/// Runs processors beside one another, for so many turns each.
pub fn run_cpus<R: Threads + Sync, G: Gate + Sync>(
    rt: &R,
    image: &Image,
    text: &LiveText,
    mut jobs: Vec<Job>,
    turns: u32,
    gate: &G,
) -> Vec<Job>
    requires plan { IsLivePlan image.now text.now.plan }
    requires ready { All (IsReady image.now text.now turns) jobs.items }
    ensures done { All (IsDone image.now text.now.plan turns) result.items }
    ensures count { vec_len result ≡ vec_len jobs }
    ensures capacity { vec_capacity result ≡ vec_capacity jobs }
    ensures entries { AllZip (λ before after. after.entry ≡ before.entry) jobs.items result.items }
{
    let Some(job) = jobs.pop() else {
        return jobs;
    };
    let (mut rest, done) = join(
        rt,
        move || -> Vec<Job>
            requires { IsSync R.row × IsSync G.row × IsLivePlan image.now text.now.plan × All (IsReady image.now text.now turns) jobs.items }
            ensures done { All (IsDone image.entry.now text.entry.now.plan turns) result.items }
            ensures count { vec_len result ≡ vec_len jobs }
            ensures capacity { vec_capacity result ≡ vec_capacity jobs }
            ensures entries { AllZip (λ before after. after.entry ≡ before.entry) jobs.items result.items }
        { run_cpus(rt, image, text, jobs, turns, gate) },
        move || -> Job
            requires { IsLivePlan image.now text.now.plan × IsReady image.now text.now turns job }
            ensures done { IsDone image.entry.now text.entry.now.plan turns result }
            ensures entry { result.entry ≡ job.entry }
        { run_cpu(image, text, job, turns, gate) },
    );
    rest.push_reserved(done);
    rest
}
