//! A processor that fetches from shared words.
use crate::fetch::{Fetched, fetch, look, renew, renew_after};
use crate::lookup::{chunk_under_way, new_form, site_at, version_for};
use insn_forms::Form;
use int3_handler::emulate;
use live_text::laws::{bytes_go_by_phases, chunks_are_poked};
use live_text::{CpuSeat, LiveText};
use module_image::Image;
use module_laws::{patched_sites_flow, plain_instructions_flow, starts_have_units};
use std::marker::Model;
use x64_subset::{Life, Mark, Proc, execute};

/// What a turn of a processor did.
#[derive(Clone, Copy, Debug, PartialEq, Eq)]
pub enum Turn {
    /// A plain instruction was done; what it showed.
    Ran(Mark),
    /// The form of a patched site was done whole: the site's number in the plan, its form, which version of the site that is
    /// (how many chunks have been done), the last acknowledgement, and what the instruction showed.
    Pass {
        site: u32,
        form: Form,
        version: u32,
        ack: u64,
        mark: Mark,
    },
    /// A breakpoint was fetched at a patched site. The next turn handles it.
    Trapped,
    /// The processor isn't running.
    Still,
}

/// A processor, and whether it hit a breakpoint whose handler hasn't run.
#[derive(Drop)]
pub struct LiveCpu {
    proc: Proc,
    trapped: bool,
}

impl Model for LiveCpu {
    ghost use Rattle.live_engine.specs.LiveCpu.{CpuState};

    ghost Value = { CpuState };

    ghost use Rattle.live_engine.specs.CpuInside.{state_of};

    ghost view = { state_of };
}

impl LiveCpu {
    ghost use Rattle.std.specs.Prelude.{◌≡◌, ◌≢◌, ◌≤◌, ◌↔◌, ◌/◌, ℕ, true, false};
    ghost use Rattle.live_text.specs.Own.{IsOwn};
    ghost use Rattle.live_text.specs.Plan.{Stands};
    ghost use Rattle.module_image.specs.Layout.{IsStart};
    ghost use Rattle.module_image.specs.Module.{Module, layout_of};
    ghost use Rattle.x64_subset.specs.declared.proc.Life.TheVariants.{Running};
    ghost use Rattle.live_engine.specs.LiveCpu.{IsPaired, IsTrapped, new_cpu, runner};
    ghost use Rattle.live_engine.specs.LivePlan.{IsLivePlan};
    ghost use Rattle.live_engine.specs.Look.{LoadsOnce, is_looking};
    ghost use Rattle.live_engine.specs.Turns.{Does, Turns};
    ghost use Rattle.live_engine.specs.Versions.{IsSiteAt, floor};

    /// A processor before its first instruction, which stands at the address `entry`: all numbers 0, all flags false, no
    /// return address.
    pub fn new(entry: u64) -> LiveCpu
        ensures { result ≡ new_cpu entry }
    {
        LiveCpu {
            proc: Proc::start(entry),
            trapped: false,
        }
    }

    /// Its registers, flags and call stack, where it stands, and whether it goes on.
    pub fn proc(&self) -> &Proc
        ensures { result.now ≡ self.now.proc }
    {
        &self.proc
    }

    /// Whether it hit a breakpoint whose handler hasn't run.
    pub fn trapped(&self) -> bool
        ensures { result ≡ self.now.trapped }
    {
        self.trapped
    }

    /// Does one turn.
    ///
    /// A processor that isn't trapped first loads the generation, where bit 0 of the word is 1, and acknowledges it where it
    /// is greater than what was acknowledged last. Then it does one instruction, if it is running: a plain one, or at a
    /// patched site what it fetches there. Byte j of the fetch is loaded where bit 8 + j of the word is 1 or nothing is
    /// cached; else it is the cached one. A breakpoint traps it, and a trapped processor does the handler: the new form of
    /// the chunk that is under way for it. The handler and SERIALIZE make it fetch anew.
    ///
    /// The text's plan has to be a live plan of the module, and the processor and the seat a pair (a new processor that
    /// stands at a start is one with every seat that hasn't left); they are one afterwards. It waits for nothing.
    pub fn turn(&mut self, image: &Image, text: &LiveText, seat: &mut CpuSeat, word: u64) -> Turn
        requires plan { IsLivePlan image.now text.now.plan }
        requires own { IsOwn text.now seat.old }
        requires paired { IsPaired image.now text.now.plan (runner self.old seat.old) }
        ensures own { IsOwn text.now seat.new }
        ensures paired { IsPaired image.now text.now.plan (runner self.new seat.new) }
        ensures turns { Turns image.now text.now.plan word (runner self.old seat.old) (runner self.new seat.new) result }
        ensures looks { LoadsOnce (is_looking self.old word) seat.old.view.cpu seat.new.view.cpu }
        // Neither the acknowledgement nor the floor of a site falls.
        ensures acks { seat.old.view.cpu.ack ≤ seat.new.view.cpu.ack }
        ensures floors { (site : ℕ) → floor text.now.plan seat.old.view site ≤ floor text.now.plan seat.new.view site }
        ensures still { (result ≡ Turn.Still) ↔ (self.old.proc.life ≢ Running) }
        ensures trapped { (self.new.trapped ≡ true) ↔ (result ≡ Turn.Trapped) }
    {
        image.accepted();
        bytes_go_by_phases();
        chunks_are_poked();
        patched_sites_flow();
        plain_instructions_flow();
        seat.keeps();
        let done = self.act(image, text, seat, word);
        seat.keeps();
        done
    }

    /// Handles the breakpoint that was hit; else looks at the generation, and does one instruction, if it is running.
    fn act(&mut self, image: &Image, text: &LiveText, seat: &mut CpuSeat, word: u64) -> Turn
        requires plan { IsLivePlan image.now text.now.plan }
        requires own { IsOwn text.now seat.old }
        requires paired { IsPaired image.now text.now.plan (runner self.old seat.old) }
        ensures own { IsOwn text.now seat.new }
        ensures turns { Turns image.now text.now.plan word (runner self.old seat.old) (runner self.new seat.new) result }
    {
        seat.keeps();
        if self.trapped {
            return self.handle(text, seat);
        }
        look(text, seat, word);
        match self.proc.life {
            Life::Running => self.step(image, text, seat, word),
            Life::Done | Life::Halted | Life::Fault(_) => Turn::Still,
        }
    }

    /// Does the handler of the breakpoint that was hit.
    fn handle(&mut self, text: &LiveText, seat: &mut CpuSeat) -> Turn
        requires stands { Stands text.now.plan }
        requires own { IsOwn text.now seat.old }
        requires stays { seat.old.view.cpu.left ≡ false }
        requires trapped { self.old.trapped ≡ true }
        requires hit { IsTrapped text.now.plan seat.old.view self.old.proc }
        requires depth { self.old.proc.depth ≤ 64 }
        ensures own { IsOwn text.now seat.new }
        ensures does { (m : Module) (word : ℕ) → Does m text.now.plan word (runner self.old seat.old) seat.old.view (runner self.new seat.new) result }
    {
        seat.keeps();
        bytes_go_by_phases();
        chunks_are_poked();
        let plan = text.plan();
        let at = self.proc.ip.wrapping_sub(1);
        let ack = text.acked(seat);
        let chunk = chunk_under_way(ack);
        let (Some(site), Some(form)) = (site_at(plan, at), new_form(plan, chunk, at)) else {
            unreachable!()
        };
        let mark = emulate(&form, at, &mut self.proc);
        self.trapped = false;
        renew(text, seat);
        Turn::Pass {
            site,
            form,
            version: chunk + 1,
            ack,
            mark,
        }
    }

    /// Does one instruction, where the processor is running and not trapped.
    fn step(&mut self, image: &Image, text: &LiveText, seat: &mut CpuSeat, word: u64) -> Turn
        requires plan { IsLivePlan image.now text.now.plan }
        requires own { IsOwn text.now seat.old }
        requires stays { seat.old.view.cpu.left ≡ false }
        requires free { self.old.trapped ≡ false }
        requires runs { self.old.proc.life ≡ Running }
        requires start { IsStart (layout_of image.now) self.old.proc.ip }
        requires depth { self.old.proc.depth ≤ 64 }
        ensures own { IsOwn text.now seat.new }
        ensures does { Does image.now text.now.plan word (runner self.old seat.old) seat.old.view (runner self.new seat.new) result }
    {
        match site_at(text.plan(), self.proc.ip) {
            Some(site) => self.pass(text, seat, site, word),
            None => self.plain(image, text, seat),
        }
    }

    /// Does what is fetched at the site where the processor stands.
    fn pass(&mut self, text: &LiveText, seat: &mut CpuSeat, site: u32, word: u64) -> Turn
        requires stands { Stands text.now.plan }
        requires own { IsOwn text.now seat.old }
        requires stays { seat.old.view.cpu.left ≡ false }
        requires free { self.old.trapped ≡ false }
        requires runs { self.old.proc.life ≡ Running }
        requires begins { IsSiteAt text.now.plan site self.old.proc.ip }
        requires depth { self.old.proc.depth ≤ 64 }
        ensures own { IsOwn text.now seat.new }
        ensures does { (m : Module) → Does m text.now.plan word (runner self.old seat.old) seat.old.view (runner self.new seat.new) result }
    {
        bytes_go_by_phases();
        chunks_are_poked();
        let at = self.proc.ip;
        let fetched = fetch(text, seat, site, word);
        seat.keeps();
        match fetched {
            Fetched::Trap => {
                self.proc.ip = at.wrapping_add(1);
                self.trapped = true;
                Turn::Trapped
            }
            Fetched::Whole(form) => {
                let ack = text.acked(seat);
                Turn::Pass {
                    site,
                    form,
                    version: version_for(text.plan(), ack, at),
                    ack,
                    mark: emulate(&form, at, &mut self.proc),
                }
            }
        }
    }

    /// Does the plain instruction where the processor stands.
    fn plain(&mut self, image: &Image, text: &LiveText, seat: &mut CpuSeat) -> Turn
        requires plan { IsLivePlan image.now text.now.plan }
        requires own { IsOwn text.now seat.old }
        requires stays { seat.old.view.cpu.left ≡ false }
        requires free { self.old.trapped ≡ false }
        requires runs { self.old.proc.life ≡ Running }
        requires start { IsStart (layout_of image.now) self.old.proc.ip }
        requires no_site { (site : ℕ) → ¬ IsSiteAt text.now.plan site self.old.proc.ip }
        requires depth { self.old.proc.depth ≤ 64 }
        ensures own { IsOwn text.now seat.new }
        ensures does { (word : ℕ) → Does image.now text.now.plan word (runner self.old seat.old) seat.old.view (runner self.new seat.new) result }
    {
        image.accepted();
        starts_have_units();
        let Some((insn, len)) = image.insn_at(self.proc.ip) else {
            unreachable!()
        };
        let mark = execute(&insn, len, &mut self.proc);
        renew_after(insn, text, seat);
        Turn::Ran(mark)
    }
}
