//! Where a processor goes on, and how it ends (Intel SDM volume 2: JMP, CALL, RET, Jcc, HLT, UD2, INT3).
ghost use Rattle.std.specs.Prelude.{◌≡◌, ◌≤◌, ◌%◌, true, if◌then◌else◌};
ghost use Rattle.x64_subset.specs.declared.proc.Mark.TheVariants.{Out};
ghost use Rattle.x64_subset.specs.Subset.{is_condition};
ghost use Rattle.x64_subset.specs.Effect.{at_ip, next, goes_on, jumps, ends, calls, returns, holds, register};

use crate::{FaultKind, Life, Mark, Proc};

impl Proc {
    /// The address after an instruction of `len` bytes.
    fn next(&self, len: u8) -> u64
        ensures { result ≡ next len self.now }
    {
        self.ip.wrapping_add(u64::from(len))
    }

    /// Goes on after an instruction of `len` bytes, and shows nothing.
    pub(crate) fn go_on(&mut self, len: u8) -> Mark
        ensures proc { self.new ≡ (goes_on len self.old).0 }
        ensures mark { result ≡ (goes_on len self.old).1 }
    {
        self.ip = self.next(len);
        Mark::None
    }

    /// Goes on at an address, and shows nothing.
    pub(crate) fn jump(&mut self, target: u64) -> Mark
        ensures proc { self.new ≡ (jumps target self.old).0 }
        ensures mark { result ≡ (jumps target self.old).1 }
    {
        self.ip = target;
        Mark::None
    }

    /// Goes on at the target where the condition holds, and else after the instruction of `len` bytes.
    pub(crate) fn jump_if(&mut self, condition: u8, target: u64, len: u8) -> Mark
        requires { is_condition condition ≡ true }
        ensures proc { self.new ≡ (if holds condition self.old then jumps target self.old else goes_on len self.old).0 }
        ensures mark { result ≡ (if holds condition self.old then jumps target self.old else goes_on len self.old).1 }
    {
        if self.holds(condition) {
            self.jump(target)
        } else {
            self.go_on(len)
        }
    }

    /// Doesn't go on, and is else as before.
    pub(crate) fn end(&mut self, life: Life) -> Mark
        ensures proc { self.new ≡ (ends life self.old).0 }
        ensures mark { result ≡ (ends life self.old).1 }
    {
        self.life = life;
        Mark::Ended
    }

    /// Pushes the address after the instruction of `len` bytes, and goes on at the target. With 64
    /// return addresses it ends in a fault.
    pub(crate) fn call(&mut self, target: u64, len: u8) -> Mark
        requires { self.old.depth ≤ 64 }
        ensures proc { self.new ≡ (calls target len self.old).0 }
        ensures mark { result ≡ (calls target len self.old).1 }
    {
        if self.depth == 64 {
            return self.end(Life::Fault(FaultKind::Depth));
        }
        self.stack[usize::from(self.depth)] = self.next(len);
        self.depth += 1;
        self.jump(target)
    }

    /// Pops the last return address, and goes on there. With none it ends: it is done.
    pub(crate) fn ret(&mut self) -> Mark
        requires { self.old.depth ≤ 64 }
        ensures proc { self.new ≡ (returns self.old).0 }
        ensures mark { result ≡ (returns self.old).1 }
    {
        if self.depth == 0 {
            return self.end(Life::Done);
        }
        self.depth -= 1;
        self.jump(self.stack[usize::from(self.depth)])
    }

    /// Goes on after an instruction of `len` bytes, and shows AL at a port.
    pub(crate) fn out(&mut self, port: u8, len: u8) -> Mark
        ensures proc { self.new ≡ at_ip (next len self.old) self.old }
        ensures mark { result ≡ Out port (register 0 self.old % 256) }
    {
        let value = (self.register(0) & 0xff) as u8;
        self.ip = self.next(len);
        Mark::Out { port, value }
    }
}
