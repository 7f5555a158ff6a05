//! Why a command failed, with the status and the complaint of each reason.
ghost use Rattle.std.specs.Prelude.{◌≡◌, ◌≤◌, ◌+◌, ◌++◌, length};
ghost use Rattle.arrayvec.specs.ArrayVec.{array_vec_len};
ghost use Rattle.poke_faults.specs.declared.fault.Fault.TheVariants.{Memory, Write};
ghost use Rattle.poke_faults.specs.declared.fault.Fault.TheVariants.{Refused as RefusedFault};
ghost use Rattle.poke_faults.specs.declared.fault.Refusal.TheVariants.{Module as ModuleRefusal, Plan as PlanRefusal};
ghost use Rattle.poke_faults.specs.RunFault.{run_fault};
ghost use Rattle.poke_faults.specs.Fault.{elf_name, elf_number, image_name, image_place, journal_reason, kind_name, module_reason, name_of, script_name, script_reason};

use crate::{JournalRefused, ModuleRefused, ScriptRefused};
use elf_module::ElfRefused;
use module_image::Refused;
use poke_base::{Line, NoMemory, WriteFail, put_dec, put_hex, put_text};
use poke_plan::PlanRefused;
use recorded_run::RunFault;
use script_text::ScriptWhy;
use site_tables::TableKind;
use thiserror::Error;

/// Which file of a command is refused, and why.
#[derive(Clone, Copy, Debug, PartialEq, Eq, Error)]
pub enum Refusal {
    /// The module file.
    #[error("module: {0}")]
    Module(ModuleRefused),
    /// The plan file.
    #[error("plan: {0}")]
    Plan(PlanRefused),
    /// The script file.
    #[error("script: {0}")]
    Script(ScriptRefused),
    /// The journal file.
    #[error("journal: {0}")]
    Journal(JournalRefused),
}

/// Why a command failed.
#[derive(Clone, Copy, Debug, PartialEq, Eq, Error)]
pub enum Fault {
    /// The words are no command.
    #[error("bad words")]
    Words,
    /// A file was refused.
    #[error(transparent)]
    Refused(Refusal),
    /// A file wasn't read.
    #[error("read failed")]
    Read,
    /// A write failed.
    #[error("write failed")]
    Write,
    /// There was no memory.
    #[error("no memory")]
    Memory,
}

impl From<ModuleRefused> for Fault {
    ghost from_gives = { λ why fault. fault ≡ RefusedFault (ModuleRefusal why) };

    fn from(why: ModuleRefused) -> Fault {
        Fault::Refused(Refusal::Module(why))
    }
}

impl From<PlanRefused> for Fault {
    ghost from_gives = { λ why fault. fault ≡ RefusedFault (PlanRefusal why) };

    fn from(why: PlanRefused) -> Fault {
        Fault::Refused(Refusal::Plan(why))
    }
}

impl From<WriteFail> for Fault {
    ghost from_gives = { λ _ fault. fault ≡ Write };

    fn from(_fail: WriteFail) -> Fault {
        Fault::Write
    }
}

impl From<RunFault> for Fault {
    ghost from_gives = { λ why fault. fault ≡ run_fault why };

    fn from(why: RunFault) -> Fault {
        match why {
            RunFault::Write => Fault::Write,
            RunFault::Line(line) => Fault::Refused(Refusal::Journal(JournalRefused::Line(line))),
        }
    }
}

impl From<NoMemory> for Fault {
    ghost from_gives = { λ _ fault. fault ≡ Memory };

    fn from(_none: NoMemory) -> Fault {
        Fault::Memory
    }
}

impl Refusal {
    ghost use Rattle.poke_faults.specs.Fault.{refusal_reason, refusal_status};

    /// The status with which the program ends.
    fn status(&self) -> u8
        ensures { result ≡ refusal_status self.now }
    {
        match self {
            Refusal::Module(_) => 2,
            Refusal::Plan(_) | Refusal::Script(_) => 3,
            Refusal::Journal(_) => 4,
        }
    }

    /// Adds the file's kind, and why it is refused, to the line.
    #[tactic(auto, using(poke_base::proofs::Numbers::line_room))]
    fn put_reason(&self, line: &mut Line)
        requires { array_vec_len line.old ≤ 10 }
        ensures reason { line.new.items ≡ line.old.items ++ refusal_reason self.now }
        ensures short { length (refusal_reason self.now) ≤ 60 }
    {
        match self {
            Refusal::Module(why) => {
                put_text(line, b"module: ");
                put_module(line, why);
            }
            Refusal::Plan(why) => {
                put_text(line, b"plan: ");
                put_text(line, plan_name(why));
            }
            Refusal::Script(why) => {
                put_text(line, b"script: ");
                put_script(line, why);
            }
            Refusal::Journal(why) => {
                put_text(line, b"journal: ");
                put_journal(line, why);
            }
        }
    }
}

impl Fault {
    ghost use Rattle.poke_faults.specs.Fault.{status_of, complaint_of, reason_of};

    /// The status with which the program ends.
    pub fn status(&self) -> u8
        ensures { result ≡ status_of self.now }
    {
        match self {
            Fault::Words => 1,
            Fault::Refused(why) => why.status(),
            Fault::Read => 5,
            Fault::Write => 6,
            Fault::Memory => 7,
        }
    }

    /// The line that is reported.
    #[tactic(auto, using(poke_base::proofs::Numbers::line_room))]
    pub fn complaint(&self) -> Line
        ensures { result.items ≡ complaint_of self.now }
    {
        let mut line = Line::new();
        put_text(&mut line, b"textpoke: ");
        self.put_reason(&mut line);
        put_text(&mut line, b"\n");
        line
    }

    /// Adds the reason to the line.
    #[tactic(auto, using(poke_base::proofs::Numbers::line_room))]
    fn put_reason(&self, line: &mut Line)
        requires { array_vec_len line.old ≤ 10 }
        ensures reason { line.new.items ≡ line.old.items ++ reason_of self.now }
        ensures short { length (reason_of self.now) ≤ 60 }
    {
        match self {
            Fault::Words => put_text(line, b"bad words"),
            Fault::Refused(why) => why.put_reason(line),
            Fault::Read => put_text(line, b"read failed"),
            Fault::Write => put_text(line, b"write failed"),
            Fault::Memory => put_text(line, b"no memory"),
        }
    }
}

/// Adds what is wrong with a module, a name and its numbers, to the line.
#[tactic(auto, using(poke_base::proofs::Numbers::line_room))]
fn put_module(line: &mut Line, why: &ModuleRefused)
    requires { array_vec_len line.old ≤ 18 }
    ensures reason { line.new.items ≡ line.old.items ++ module_reason why.now }
    ensures short { length (module_reason why.now) ≤ 47 }
{
    match why {
        ModuleRefused::TooLong => put_text(line, b"TooLong"),
        ModuleRefused::Elf(why) => {
            put_text(line, elf_name(why));
            put_text(line, b" ");
            put_hex(line, elf_number(why));
        }
        ModuleRefused::Image(why) => {
            put_text(line, image_name(why));
            put_text(line, b" ");
            put_image_place(line, why);
        }
    }
}

/// Adds what is wrong with a script, a name or a line and a name, to the line.
#[tactic(auto, using(poke_base::proofs::Numbers::line_room))]
fn put_script(line: &mut Line, why: &ScriptRefused)
    requires { array_vec_len line.old ≤ 18 }
    ensures reason { line.new.items ≡ line.old.items ++ script_reason why.now }
    ensures short { length (script_reason why.now) ≤ 34 }
{
    match why {
        ScriptRefused::TooLong => put_text(line, b"TooLong"),
        ScriptRefused::Line { line: number, why } => {
            put_text(line, b"line ");
            put_dec(line, u64::from(*number));
            put_text(line, b": ");
            put_text(line, script_name(why));
        }
    }
}

/// Adds what is wrong with a journal, a name or a line, to the line.
#[tactic(auto, using(poke_base::proofs::Numbers::line_room))]
fn put_journal(line: &mut Line, why: &JournalRefused)
    requires { array_vec_len line.old ≤ 19 }
    ensures reason { line.new.items ≡ line.old.items ++ journal_reason why.now }
    ensures short { length (journal_reason why.now) ≤ 25 }
{
    match why {
        JournalRefused::TooLong => put_text(line, b"TooLong"),
        JournalRefused::Line(number) => {
            put_text(line, b"line ");
            put_dec(line, *number);
        }
    }
}

/// Adds what says where a module isn't accepted, a word of a table or numbers, to the line.
#[tactic(auto, using(poke_base::proofs::Numbers::line_room))]
fn put_image_place(line: &mut Line, why: &Refused)
    requires { array_vec_len line.old ≤ 32 }
    ensures place { line.new.items ≡ line.old.items ++ image_place why.now }
    ensures short { length (image_place why.now) ≤ 33 }
{
    match *why {
        Refused::Table(kind, size) => {
            put_text(line, kind_name(kind));
            put_text(line, b" ");
            put_hex(line, size);
        }
        Refused::BadTarget(from, to) => {
            put_hex(line, from);
            put_text(line, b" ");
            put_hex(line, to);
        }
        Refused::TextCount(n)
        | Refused::TextSize(n)
        | Refused::SiteCount(n)
        | Refused::SiteOutside(n)
        | Refused::SiteLength(n)
        | Refused::SiteOverlap(n)
        | Refused::KeyOutside(n)
        | Refused::KeyState(n)
        | Refused::NoReach(n)
        | Refused::TracerMissing(n)
        | Refused::Undecoded(n)
        | Refused::EndFalls(n) => put_hex(line, n),
        Refused::NoMemory => {}
    }
}

/// The name of why a module isn't accepted.
fn image_name(why: &Refused) -> &'static [u8]
    ensures name { result.now ≡ image_name why.now }
    ensures short { length result.now ≤ 13 }
{
    match why {
        Refused::TextCount(_) => b"TextCount",
        Refused::TextSize(_) => b"TextSize",
        Refused::Table(..) => b"Table",
        Refused::SiteCount(_) => b"SiteCount",
        Refused::SiteOutside(_) => b"SiteOutside",
        Refused::SiteLength(_) => b"SiteLength",
        Refused::SiteOverlap(_) => b"SiteOverlap",
        Refused::KeyOutside(_) => b"KeyOutside",
        Refused::KeyState(_) => b"KeyState",
        Refused::NoReach(_) => b"NoReach",
        Refused::TracerMissing(_) => b"TracerMissing",
        Refused::Undecoded(_) => b"Undecoded",
        Refused::BadTarget(..) => b"BadTarget",
        Refused::EndFalls(_) => b"EndFalls",
        Refused::NoMemory => b"NoMemory",
    }
}

/// The name of a plan's refusal.
fn plan_name(why: &PlanRefused) -> &'static [u8]
    ensures name { result.now ≡ name_of why.now }
    ensures short { length result.now ≤ 7 }
{
    match why {
        PlanRefused::TooLong => b"TooLong",
        PlanRefused::Line => b"Line",
        PlanRefused::NoReach => b"NoReach",
        PlanRefused::Old => b"Old",
    }
}

/// The name of why a line of a script is refused.
fn script_name(why: &ScriptWhy) -> &'static [u8]
    ensures name { result.now ≡ script_name why.now }
    ensures short { length result.now ≤ 7 }
{
    match why {
        ScriptWhy::Word => b"Word",
        ScriptWhy::NoCpu => b"NoCpu",
        ScriptWhy::LateCpu => b"LateCpu",
        ScriptWhy::Cpus => b"Cpus",
        ScriptWhy::Number => b"Number",
        ScriptWhy::Name => b"Name",
        ScriptWhy::Updates => b"Updates",
        ScriptWhy::Drops => b"Drops",
        ScriptWhy::Turns => b"Turns",
    }
}

/// The word for a table.
fn kind_name(kind: TableKind) -> &'static [u8]
    ensures name { result.now ≡ kind_name kind }
    ensures short { length result.now ≤ 5 }
{
    match kind {
        TableKind::Jump => b"jump",
        TableKind::Call => b"call",
        TableKind::Trace => b"trace",
    }
}

/// The name of what is wrong with an ELF file.
fn elf_name(why: &ElfRefused) -> &'static [u8]
    ensures name { result.now ≡ elf_name why.now }
    ensures short { length result.now ≤ 11 }
{
    match why {
        ElfRefused::Short(_) => b"Short",
        ElfRefused::Magic(_) => b"Magic",
        ElfRefused::Class(_) => b"Class",
        ElfRefused::Data(_) => b"Data",
        ElfRefused::Version(_) => b"Version",
        ElfRefused::Machine(_) => b"Machine",
        ElfRefused::Kind(_) => b"Kind",
        ElfRefused::Relocatable(_) => b"Relocatable",
        ElfRefused::Headers(_) => b"Headers",
        ElfRefused::Section(_) => b"Section",
        ElfRefused::Names(_) => b"Names",
        ElfRefused::Symbols(_) => b"Symbols",
    }
}

/// The number that says where it is wrong.
fn elf_number(why: &ElfRefused) -> u64
    ensures { result ≡ elf_number why.now }
{
    match *why {
        ElfRefused::Short(n)
        | ElfRefused::Magic(n)
        | ElfRefused::Class(n)
        | ElfRefused::Data(n)
        | ElfRefused::Version(n)
        | ElfRefused::Machine(n)
        | ElfRefused::Kind(n)
        | ElfRefused::Relocatable(n)
        | ElfRefused::Headers(n)
        | ElfRefused::Section(n)
        | ElfRefused::Names(n)
        | ElfRefused::Symbols(n) => n,
    }
}
