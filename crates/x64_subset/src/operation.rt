//! Operations with registers, and the flags that they set (Intel SDM volume 2, "Operation" and "Flags
//! Affected").
ghost use Rattle.std.specs.Prelude.{◌≡◌, ◌<◌};
ghost use Rattle.x64_subset.specs.Effect.{register, stored, flagged, worked, operated, stepped};

use crate::arithmetic::{Computed, bits, difference, sum};
use crate::{AluOp, Proc};

impl Proc {
    /// The number in a register.
    pub(crate) fn register(&self, r: u8) -> u32
        requires { r < 8 }
        ensures { result ≡ register r self.now }
    {
        self.regs[usize::from(r)]
    }

    /// Puts a number into a register. Flags stay as they are.
    pub(crate) fn store(&mut self, r: u8, value: u32)
        requires { r < 8 }
        ensures { self.new ≡ stored r value self.old }
    {
        self.regs[usize::from(r)] = value;
    }

    /// Sets the flags as a result says.
    pub(crate) fn set_flags(&mut self, computed: Computed)
        ensures { self.new ≡ flagged computed self.old }
    {
        self.carry = computed.carry;
        self.zero = computed.value == 0;
        self.sign = computed.value >= 0x8000_0000;
        self.overflow = computed.overflow;
    }

    /// Stores a result, and sets the flags as it says.
    pub(crate) fn work(&mut self, r: u8, computed: Computed)
        requires { r < 8 }
        ensures { self.new ≡ worked r computed self.old }
    {
        self.store(r, computed.value);
        self.set_flags(computed);
    }

    /// Stores a result, and sets the flags as it says, but carry, which stays as it is.
    pub(crate) fn step(&mut self, rm: u8, computed: Computed)
        requires { rm < 8 }
        ensures { self.new ≡ stepped rm computed self.old }
    {
        let carry = self.carry;
        self.work(rm, computed);
        self.carry = carry;
    }

    /// Does an operation with a register, the destination, and the source.
    pub(crate) fn operate(&mut self, op: AluOp, rm: u8, source: u32)
        requires { rm < 8 }
        ensures { self.new ≡ operated op rm source self.old }
    {
        let number = self.register(rm);
        match op {
            AluOp::Add => self.work(rm, sum(number, source)),
            AluOp::Sub => self.work(rm, difference(number, source)),
            AluOp::Xor => self.work(rm, bits(number ^ source)),
            AluOp::Cmp => self.set_flags(difference(number, source)),
            AluOp::Test => self.set_flags(bits(number & source)),
            AluOp::Mov => self.store(rm, source),
        }
    }
}
