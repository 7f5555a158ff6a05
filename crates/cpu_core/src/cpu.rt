//! A processor, and its turns.
use crate::fetch::{fetch, may_fetch};
use crate::{Stepped, TurnKind};
use int3_handler::{Handled, handle};
use module_image::Image;
use poke_base::CodeBytes;
use poke_batch::Batch;
use stale_fetch::Text;
use std::marker::Model;
use x64_subset::{FaultKind, Insn, Life, Proc, decode, execute};

/// A processor, and whether it hit a breakpoint whose handler hasn't run.
#[derive(Drop)]
pub struct Cpu {
    proc: Proc,
    trapped: bool,
}

impl Model for Cpu {
    ghost use Rattle.cpu_core.specs.Standing.{IsStanding, ArePicked, AreIts, end_of};
    ghost use Rattle.cpu_core.specs.Turn.{CpuState};

    ghost Value = { CpuState };

    ghost use Rattle.cpu_core.specs.CpuInside.{state_of, IsSound};

    ghost view = { state_of };

    ghost invariant = { IsSound };
}

impl Cpu {
    ghost use Rattle.std.specs.Prelude.{◌≡◌, ◌<◌, ◌≤◌, ◌↔◌, ℕ, IsTrue, true, false, if◌then◌else◌, length};
    ghost use Rattle.int3_handler.specs.Handler.{answer};
    ghost use Rattle.stale_fetch.specs.Past.{Past, with_serialised};
    ghost use Rattle.stale_fetch.specs.Text.{Covers};
    ghost use Rattle.x64_subset.specs.declared.proc.Life.TheVariants.{Running};
    ghost use Rattle.cpu_core.specs.declared.turn.TurnKind.TheVariants.{Plain};
    ghost use Rattle.cpu_core.specs.Fetch.{IsFetch};
    ghost use Rattle.cpu_core.specs.Standing.{IsStanding, ArePicked, AreIts, end_of};
    ghost use Rattle.cpu_core.specs.Turn.{new_cpu, kind_of, torn, plain_here, plain_turn, plain_answer, plain_serialises, at_turn, at_answer, handled_turn};

    /// A processor before its first instruction, which stands at the address `entry`: all numbers 0,
    /// all flags false, no return address.
    pub fn new(entry: u64) -> Cpu
        ensures { result ≡ new_cpu entry }
    {
        Cpu {
            proc: Proc::start(entry),
            trapped: false,
        }
    }

    /// Its registers, flags and call stack, where it stands, and whether it goes on.
    pub fn proc(&self) -> &Proc
        ensures { result.now ≡ self.now.proc }
    {
        &self.proc
    }

    /// Whether it hit a breakpoint whose handler hasn't run.
    pub fn trapped(&self) -> bool
        ensures { result ≡ self.now.trapped }
    {
        self.trapped
    }

    /// What its next turn is: nothing where it has ended, the handler of a breakpoint that it hit, a
    /// fetch where a patched site begins, or else a plain instruction.
    pub fn kind(&self, image: &Image) -> TurnKind
        ensures { result ≡ kind_of image.now self.now }
    {
        match self.proc.life {
            Life::Running if self.trapped => TurnKind::Handle,
            Life::Running => match image.site_at(self.proc.ip) {
                Some(_) => TurnKind::At,
                None => TurnKind::Plain,
            },
            Life::Done | Life::Halted | Life::Fault(_) => TurnKind::Tick,
        }
    }

    /// Ends in the fault `Undefined`, since no instruction is there.
    fn tear(&mut self) -> Stepped
        requires { self.old.trapped ≡ false }
        ensures cpu { self.new ≡ record self.old { proc = torn self.old.proc } }
        ensures answer { result ≡ Stepped.Torn }
    {
        self.proc.life = Life::Fault(FaultKind::Undefined);
        Stepped::Torn
    }

    /// Does the plain instruction at which it stands, which is a turn of the kind `Plain`. Where none
    /// begins there it ends in the fault `Undefined`. SERIALIZE makes the processor, whose number is
    /// `cpu`, serialise (Intel SDM volume 3, "Serializing Instructions"); any other instruction leaves
    /// the text as it is.
    pub fn plain<T: Text>(&mut self, cpu: u8, image: &Image, text: &mut T) -> Stepped
        requires kind { kind_of image.now self.old ≡ Plain }
        requires known { cpu < (T.shape text.old).cpus }
        ensures cpu { self.new ≡ plain_turn image.now self.old }
        ensures answer { result ≡ plain_answer (plain_here image.now self.old) self.old.proc }
        ensures text { (p : Past) → T.stands text.old p → T.stands text.new (if plain_serialises (plain_here image.now self.old) then with_serialised p cpu else p) }
        ensures shape { T.shape text.new ≡ T.shape text.old }
    {
        match image.insn_at(self.proc.ip) {
            Some((insn, len)) => {
                if let Insn::Serialize = insn {
                    text.serialise(cpu);
                }
                Stepped::Plain(execute(&insn, len, &mut self.proc))
            }
            None => self.tear(),
        }
    }

    /// The bytes that it fetches where it stands: as many as it takes to tell which instruction they
    /// are, or that they are none; fewer where the text ends before. They are one to nine. Each is a
    /// candidate of the processor, whose number is `cpu`: that at place j is the one that bits 8j to
    /// 8j + 7 of the word pick, modulo how many there are, and for the ninth byte 0 does.
    ///
    /// It has to be running and to stand inside of the text, and may not have hit a breakpoint whose
    /// handler hasn't run. No address of the text may wrap.
    pub fn fetch<T: Text>(&self, cpu: u8, text: &T, word: u64) -> CodeBytes
        requires running { self.now.proc.life ≡ Running }
        requires free { self.now.trapped ≡ false }
        requires stands { IsStanding (T.stands text.now) }
        requires known { cpu < (T.shape text.now).cpus }
        requires inside { Covers (T.shape text.now) self.now.proc.ip }
        ensures fetch { (p : Past) → T.stands text.now p → IsFetch (end_of p) self.now.proc.ip result.items }
        ensures picked { (p : Past) → T.stands text.now p → ArePicked word p cpu self.now.proc.ip result.items }
        ensures some { 1 ≤ length result.items }
    {
        fetch(cpu, text, self.proc.ip, word)
    }

    /// Whether it may fetch these bytes where it stands: it takes all of them to tell which instruction
    /// they are, or that they are none, or the text ends after them; and each is a candidate of the
    /// processor, whose number is `cpu`. It has to be as for `fetch`.
    pub fn may_fetch<T: Text>(&self, cpu: u8, text: &T, bytes: &CodeBytes) -> bool
        requires running { self.now.proc.life ≡ Running }
        requires free { self.now.trapped ≡ false }
        requires stands { IsStanding (T.stands text.now) }
        requires known { cpu < (T.shape text.now).cpus }
        requires inside { Covers (T.shape text.now) self.now.proc.ip }
        ensures { (p : Past) → T.stands text.now p → (IsTrue result ↔ (IsFetch (end_of p) self.now.proc.ip bytes.now.items × AreIts p cpu self.now.proc.ip bytes.now.items)) }
    {
        may_fetch(cpu, text, self.proc.ip, bytes)
    }

    /// Does what the bytes are that it fetched at a patched site: an instruction, or a breakpoint,
    /// after which it stands and waits for its handler. Where they are no instruction it ends in the
    /// fault `Undefined`.
    pub fn at(&mut self, bytes: &CodeBytes) -> Stepped
        requires running { self.old.proc.life ≡ Running }
        requires free { self.old.trapped ≡ false }
        requires fetch { (end : ℕ) × IsFetch end self.old.proc.ip bytes.now.items }
        ensures cpu { self.new ≡ at_turn bytes.now.items self.old }
        ensures answer { result ≡ at_answer bytes.now.items self.old }
    {
        let at = self.proc.ip;
        match decode(at, bytes) {
            Ok((Insn::Int3, _)) => {
                self.proc.ip = at.wrapping_add(1);
                self.trapped = true;
                Stepped::Trapped
            }
            Ok((insn, len)) => {
                let mark = execute(&insn, len, &mut self.proc);
                Stepped::Pass { at, insn, mark }
            }
            Err(_) => self.tear(),
        }
    }

    /// Runs the handler of the breakpoint that it hit, which does the new form of the site of the open
    /// chunk that begins there, and ends it in the fault `Breakpoint` where none does. Whatever was
    /// found, the return from the handler, IRET, makes the processor, whose number is `cpu`, serialise
    /// (Intel SDM volume 3, "Serializing Instructions").
    pub fn handled<T: Text>(&mut self, cpu: u8, batch: &Batch, text: &mut T) -> Handled
        requires trapped { self.old.trapped ≡ true }
        requires known { cpu < (T.shape text.old).cpus }
        ensures cpu { self.new ≡ handled_turn batch.now.update self.old }
        ensures answer { result ≡ answer batch.now.update self.old.proc }
        ensures text { (p : Past) → T.stands text.old p → T.stands text.new (with_serialised p cpu) }
        ensures shape { T.shape text.new ≡ T.shape text.old }
    {
        let handled = handle(batch, &mut self.proc);
        self.trapped = false;
        text.serialise(cpu);
        handled
    }
}
