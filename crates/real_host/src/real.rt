//! The host of a running program: the files of its runtime, and what stands for standard output and standard
//! error.
//!
//! Which bytes a file of the system has stands in no contract, so this host tells no contents as a `Host`. What
//! its calls do to writers that tell what they hold, its own clauses say.
ghost use Rattle.std.specs.Prelude.{◌≡◌, ◌≤◌};
ghost use Rattle.poke_base.specs.MemoryHost.{one_more};

use crate::streams::{read_within, write_piece};
use poke_base::{Host, ReadFail, WriteFail};
use std::fs;
use std::fs::OpenFile;
use std::io::Write;
use std::rt::{Files, HostRuntime, Stderr, Stdout};

/// The host of a running program, over a runtime with its files, and the writers that it prints and complains to.
#[derive(Drop)]
pub struct RealHost<R: Files, O, E> {
    rt: R,
    output: O,
    errors: E,
    file: Option<R::File>,
    making: Option<String>,
    read_faults: u64,
    write_faults: u64,
    complain_faults: u64,
}

impl<'a> RealHost<&'a HostRuntime, Stdout, Stderr> {
    ghost use Rattle.real_host.specs.TheHost.{real_outside, untold_outside};

    /// The host of a program: the files, standard output and standard error of its runtime.
    pub fn new(rt: &'a HostRuntime) -> Self
        ensures { real_outside result ≡ untold_outside }
    {
        RealHost::over(rt, rt.stdout(), rt.stderr())
    }
}

impl<R: Files, O: Write, E: Write> RealHost<R, O, E> {
    ghost use Rattle.real_host.specs.TheHost.{real_outside, untold_outside, output_of, errors_of};

    /// A host over a runtime and two writers, with no file being made and no failures.
    pub fn over(rt: R, output: O, errors: E) -> Self
        ensures outside { real_outside result ≡ untold_outside }
        ensures output { output_of result ≡ output }
        ensures errors { errors_of result ≡ errors }
    {
        RealHost {
            rt,
            output,
            errors,
            file: None,
            making: None,
            read_faults: 0,
            write_faults: 0,
            complain_faults: 0,
        }
    }

    /// Counts a failed read.
    fn read_fault(&mut self) -> ReadFail
        ensures fail { result ≡ ReadFail.Failed }
        ensures same { self.new ≡ record self.old { read_faults = one_more self.old.read_faults } }
        ensures grows { self.old.read_faults ≤ self.new.read_faults }
    {
        self.read_faults = self.read_faults.saturating_add(1);
        ReadFail::Failed
    }

    /// Counts a failed write.
    fn write_fault(&mut self) -> WriteFail
        ensures same { self.new ≡ record self.old { write_faults = one_more self.old.write_faults } }
        ensures grows { self.old.write_faults ≤ self.new.write_faults }
    {
        self.write_faults = self.write_faults.saturating_add(1);
        WriteFail
    }

    /// Counts a failed complaint.
    fn complain_fault(&mut self) -> WriteFail
        ensures same { self.new ≡ record self.old { complain_faults = one_more self.old.complain_faults } }
        ensures grows { self.old.complain_faults ≤ self.new.complain_faults }
    {
        self.complain_faults = self.complain_faults.saturating_add(1);
        WriteFail
    }
}

/// How many bytes a read within a limit takes of a file, as far as the system tells the file's length: memory
/// for so many is taken at once, so that it isn't doubled while a long file is read.
fn wanted_len<F: OpenFile>(file: &F, limit: u64) -> usize {
    match file.metadata() {
        Ok(metadata) => metadata.len().min(limit.saturating_add(1)) as usize,
        Err(_) => 0,
    }
}

impl<R: Files + AllocGlobal, O: Write, E: Write> Host for RealHost<R, O, E> {
    ghost use Rattle.std.specs.Prelude.{[], IsSome, OnOk};
    ghost use Rattle.poke_base.specs.Host.{MakesFile, Appends, Prints, Complains};
    ghost use Rattle.real_host.specs.Written.{Writes};
    ghost use Rattle.real_host.specs.TheHost.{real_outside, output_of, errors_of, file_of, WritesFile};

    ghost outside = { real_outside };

    fn read_file(&mut self, name: &str, limit: u64, out: &mut Vec<u8>) -> Result<(), ReadFail> {
        let Ok(mut file) = fs::open(&self.rt, name) else {
            return Err(self.read_fault());
        };
        out.reserve_exact(wanted_len(&file, limit))?;
        match read_within(&mut file, limit, out) {
            Err(ReadFail::Failed) => Err(self.read_fault()),
            result => result,
        }
    }

    fn make_file(&mut self, name: &str) -> Result<(), WriteFail>
        ensures makes { MakesFile (real_outside self.old) (real_outside self.new) name.now result }
        ensures there { OnOk result (IsSome (file_of self.new)) }
    {
        self.file = None;
        self.making = None;
        let Ok(making) = String::from_str(self.rt.alloc(), name) else {
            return Err(self.write_fault());
        };
        let Ok(file) = fs::create(&self.rt, name) else {
            return Err(self.write_fault());
        };
        self.file = Some(file);
        self.making = Some(making);
        Ok(())
    }

    fn append(&mut self, piece: &[u8]) -> Result<(), WriteFail>
        requires { IsSome (real_outside self.old).making }
        ensures appends { Appends (real_outside self.old) (real_outside self.new) piece.now result }
        ensures writes { WritesFile (R.File.contents) (file_of self.old) (file_of self.new) piece.now result }
    {
        let Some(file) = &mut self.file else {
            return Err(self.write_fault());
        };
        match write_piece(file, piece) {
            Ok(()) => Ok(()),
            Err(_) => Err(self.write_fault()),
        }
    }

    fn print(&mut self, piece: &[u8]) -> Result<(), WriteFail>
        ensures prints { Prints (real_outside self.old) (real_outside self.new) piece.now result }
        ensures writes { Writes (O.contents (output_of self.old)) (O.contents (output_of self.new)) piece.now result }
        ensures others { errors_of self.new ≡ errors_of self.old }
    {
        match write_piece(&mut self.output, piece) {
            Ok(()) => Ok(()),
            Err(_) => Err(self.write_fault()),
        }
    }

    fn complain(&mut self, piece: &[u8]) -> Result<(), WriteFail>
        ensures complains { Complains (real_outside self.old) (real_outside self.new) piece.now result }
        ensures writes { Writes (E.contents (errors_of self.old)) (E.contents (errors_of self.new)) piece.now result }
        ensures others { output_of self.new ≡ output_of self.old }
    {
        match write_piece(&mut self.errors, piece) {
            Ok(()) => Ok(()),
            Err(_) => Err(self.complain_fault()),
        }
    }
}

#[cfg(test)]
mod tests {
    use super::*;
    use std::test::Fail;

    #[test]
    fn prints_and_complains_apart(rt: HostRuntime) -> Result<(), Fail> {
        let alloc = rt.alloc();
        let mut host = RealHost::over(&rt, Vec::new(alloc), Vec::new(alloc));
        for (printed, complained) in [("a", "textpoke: "), ("bc", "bad words\n")] {
            assert_eq!(rt; host.print(printed.as_bytes()), Ok(()));
            assert_eq!(rt; host.complain(complained.as_bytes()), Ok(()));
        }
        assert_eq!(rt; host.output.as_slice(), b"abc".as_slice());
        assert_eq!(rt; host.errors.as_slice(), b"textpoke: bad words\n".as_slice());
        Ok(())
    }
}
