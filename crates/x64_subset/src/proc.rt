//! A processor's own state (Intel SDM volume 1, section 3.4: registers, flags, instruction pointer).
ghost use Rattle.std.specs.Prelude.{◌≡◌};
ghost use Rattle.x64_subset.specs.Proc.{start};

/// A processor. Its call stack stands apart from data, and has room for 64 return addresses.
#[derive(Clone, Debug, PartialEq, Eq, Drop)]
pub struct Proc {
    /// The registers of 32 bits, by number.
    pub regs: [u32; 8],
    /// CF
    pub carry: bool,
    /// ZF
    pub zero: bool,
    /// SF
    pub sign: bool,
    /// OF
    pub overflow: bool,
    /// The address of the next instruction.
    pub ip: u64,
    /// Return addresses, the last one called at `depth - 1`.
    pub stack: [u64; 64],
    /// How many return addresses there are, at most 64.
    pub depth: u8,
    /// Whether it goes on.
    pub life: Life,
}

/// Whether a processor goes on.
#[derive(Clone, Copy, Debug, PartialEq, Eq)]
pub enum Life {
    Running,
    /// It returned with no return address left.
    Done,
    Halted,
    Fault(FaultKind),
}

/// Why a processor ended in a fault.
#[derive(Clone, Copy, Debug, PartialEq, Eq)]
pub enum FaultKind {
    /// No instruction, or UD2.
    Undefined,
    /// INT3 where nothing is patched.
    Breakpoint,
    /// A call with 64 return addresses.
    Depth,
}

/// What an instruction shows outside.
#[derive(Clone, Copy, Debug, PartialEq, Eq)]
pub enum Mark {
    None,
    /// A byte to a port.
    Out { port: u8, value: u8 },
    /// The processor doesn't go on.
    Ended,
}

impl Proc {
    /// A processor before its first instruction, which stands at the address `entry`: all numbers 0,
    /// all flags false, no return address.
    pub fn start(entry: u64) -> Proc
        ensures { result ≡ start entry }
    {
        Proc {
            regs: [0; 8],
            carry: false,
            zero: false,
            sign: false,
            overflow: false,
            ip: entry,
            stack: [0; 64],
            depth: 0,
            life: Life::Running,
        }
    }
}
