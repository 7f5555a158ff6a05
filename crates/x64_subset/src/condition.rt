//! The conditions of jumps (Intel SDM volume 2, appendix B.1.4.7).
ghost use Rattle.std.specs.Prelude.{◌≡◌, ◌<◌, true};
ghost use Rattle.x64_subset.specs.Subset.{is_condition};
ghost use Rattle.x64_subset.specs.Effect.{holds, is_met, is_less};

use crate::Proc;

impl Proc {
    /// Whether a condition holds, which is the low four bits of the opcodes of Jcc. The lowest of them is
    /// a negation.
    pub(crate) fn holds(&self, condition: u8) -> bool
        requires { is_condition condition ≡ true }
        ensures { result ≡ holds condition self.now }
    {
        let is_met = self.is_met(condition / 2);
        if condition % 2 == 0 { is_met } else { !is_met }
    }

    /// Whether the condition of an even number holds, by the half of the number. Parity, half 5, is
    /// excluded.
    fn is_met(&self, half: u8) -> bool
        requires below { half < 8 }
        requires parity { half ≡ 5 → ⊥ }
        ensures { result ≡ is_met half self.now }
    {
        match half {
            0 => self.overflow,
            1 => self.carry,
            2 => self.zero,
            3 => self.carry || self.zero,
            4 => self.sign,
            6 => self.is_less(),
            7 => self.zero || self.is_less(),
            _ => unreachable!(),
        }
    }

    /// Whether sign differs from overflow: of two numbers with a sign that were compared, the first
    /// is less.
    fn is_less(&self) -> bool
        ensures { result ≡ is_less self.now }
    {
        self.sign != self.overflow
    }
}
