//! A host in memory, whose calls fail where it was told.
ghost use Rattle.std.specs.Prelude.{◌≡◌, ◌++◌, ◌<◌, ◌≤◌, ◌+◌, ◌-◌, ◌/◌, ◌^◌, ◌∷◌, [], ◌⊎◌, ◌↔◌, Some, Err, IsTrue, IsSome, IsErr, OnOk, OnErr, option_map, length, take, if◌then◌else◌};
ghost use Rattle.poke_base.specs.Gives.{Gives};

use crate::store::Store;
use crate::{AskedBy, Host, NoMemory, ReadFail, WriteFail};
use std::alloc::Global;

/// A host that keeps its files and texts in memory and tells all of them.
///
/// It numbers the calls of `Host` from 1, and a call whose number is on its list fails: `read_file`
/// reads nothing then, `make_file` changes no file, and the others add the first half of their
/// piece. A call also fails, with nothing added, where the host finds no memory for what it keeps;
/// that is counted in `starved`, and from the first time on the names asked aren't told. Where a
/// count stands at the greatest u64 it stays there; once `starved` does, every call fails.
#[derive(Drop)]
pub struct MemoryHost {
    alloc: Global,
    store: Store,
    printed: Vec<u8>,
    complained: Vec<u8>,
    asked: Vec<(String, AskedBy)>,
    failing: Vec<u64>,
    calls: u64,
    starved: u64,
    read_faults: u64,
    write_faults: u64,
    complain_faults: u64,
}

impl MemoryHost {
    ghost use Rattle.poke_base.specs.Host.{with_file};
    ghost use Rattle.poke_base.specs.MemoryHost.{outside_of, failing_calls, calls_made, wants_of, nothing_outside, SameNumbers, file_in, names_of, one_more, IsListed};

    /// A host with no file, empty texts and lists, and all numbers 0.
    pub fn new(alloc: Global) -> Self
        ensures outside { outside_of result ≡ nothing_outside }
        ensures failing { failing_calls result ≡ [] }
        ensures calls { calls_made result ≡ 0 }
        ensures wants { wants_of result ≡ 0 }
    {
        MemoryHost {
            alloc,
            store: Store::new(alloc),
            printed: Vec::new(alloc),
            complained: Vec::new(alloc),
            asked: Vec::new(alloc),
            failing: Vec::new(alloc),
            calls: 0,
            starved: 0,
            read_faults: 0,
            write_faults: 0,
            complain_faults: 0,
        }
    }

    /// Puts a file there, or other bytes into it. This is no call of `Host`.
    ///
    /// # Errors
    /// Out of memory, which leaves the host as it was.
    pub fn put(&mut self, name: &str, bytes: &[u8]) -> Result<(), NoMemory>
        ensures ok { OnOk result (outside_of self.new ≡ record (outside_of self.old) { files = with_file (outside_of self.old).files name.now bytes.now }) }
        ensures err { OnErr result (outside_of self.new ≡ outside_of self.old) }
        ensures failing { failing_calls self.new ≡ failing_calls self.old }
        ensures numbers { SameNumbers self.old self.new }
    {
        self.store.put(self.alloc, name, bytes)
    }

    /// Lets the call of this number fail, counted from 1 over all calls of `Host`.
    ///
    /// # Errors
    /// Out of memory, which leaves the host as it was.
    pub fn fail_at(&mut self, call: u64) -> Result<(), NoMemory>
        ensures ok { OnOk result (failing_calls self.new ≡ failing_calls self.old ++ call ∷ []) }
        ensures err { OnErr result (failing_calls self.new ≡ failing_calls self.old) }
        ensures outside { outside_of self.new ≡ outside_of self.old }
        ensures numbers { SameNumbers self.old self.new }
    {
        self.failing.push(call)?;
        Ok(())
    }

    /// The bytes of a file. `None` exactly where there is no such file.
    pub fn file(&self, name: &str) -> Option<&[u8]>
        ensures { option_map (λ bytes. bytes.now) result ≡ file_in (outside_of self.now).files name.now }
    {
        self.store.file(name)
    }

    /// What was printed.
    pub fn printed(&self) -> &[u8]
        ensures { (outside_of self.now).printed ≡ Some result.now }
    {
        &self.printed
    }

    /// What was reported.
    pub fn complained(&self) -> &[u8]
        ensures { (outside_of self.now).complained ≡ Some result.now }
    {
        &self.complained
    }

    /// How often the host found no memory for what it keeps.
    pub fn starved(&self) -> u64
        ensures { result ≡ wants_of self.now }
    {
        self.starved
    }

    /// Gives the call that begins its number, and says whether it stands on the list.
    fn begin(&mut self) -> bool
        ensures listed { IsTrue result ↔ IsListed self.old }
        ensures same { self.new ≡ record self.old { calls = one_more self.old.calls } }
    {
        self.calls = self.calls.saturating_add(1);
        self.failing.contains(&self.calls)
    }

    /// Counts that the host found no memory for what it keeps.
    fn starve(&mut self)
        ensures { self.new ≡ record self.old { starved = one_more self.old.starved } }
    {
        self.starved = self.starved.saturating_add(1);
    }

    /// Keeps the name that a call was handed.
    fn ask(&mut self, name: &str, by: AskedBy) -> Result<(), NoMemory>
        ensures names { OnOk result (names_of self.new.asked.items ≡ names_of self.old.asked.items ++ (name.now, by) ∷ []) }
        ensures ok { OnOk result (self.new ≡ record self.old { asked = self.new.asked }) }
        ensures room { OnOk result (self.old.starved < 2 ^ 64 - 1) }
        ensures err { OnErr result (self.new ≡ record self.old { asked = self.new.asked; starved = one_more self.old.starved }) }
    {
        if self.starved == u64::MAX {
            return Err(NoMemory);
        }
        let Ok(kept) = String::from_str(self.alloc, name) else {
            self.starve();
            return Err(NoMemory);
        };
        if self.asked.push((kept, by)).is_err() {
            self.starve();
            return Err(NoMemory);
        }
        Ok(())
    }

    /// Counts a failed read.
    fn read_fault(&mut self) -> ReadFail
        ensures fail { result ≡ ReadFail.Failed }
        ensures same { self.new ≡ record self.old { read_faults = one_more self.old.read_faults } }
        ensures grows { self.old.read_faults ≤ self.new.read_faults }
    {
        self.read_faults = self.read_faults.saturating_add(1);
        ReadFail::Failed
    }

    /// Counts a failed write.
    fn write_fault(&mut self) -> WriteFail
        ensures same { self.new ≡ record self.old { write_faults = one_more self.old.write_faults } }
        ensures grows { self.old.write_faults ≤ self.new.write_faults }
    {
        self.write_faults = self.write_faults.saturating_add(1);
        WriteFail
    }

    /// Counts a failed complaint.
    fn complain_fault(&mut self) -> WriteFail
        ensures same { self.new ≡ record self.old { complain_faults = one_more self.old.complain_faults } }
        ensures grows { self.old.complain_faults ≤ self.new.complain_faults }
    {
        self.complain_faults = self.complain_faults.saturating_add(1);
        WriteFail
    }
}

/// What a call adds of its piece: half of it where its number is on the list.
fn attempted(piece: &[u8], listed: bool) -> &[u8]
    ensures { result.now ≡ (if listed then take (length piece.now / 2) piece.now else piece.now) }
{
    if listed {
        &piece[..piece.len() / 2]
    } else {
        piece
    }
}

/// Gives a file's bytes to a caller that allows this many, or one more than that.
fn give(bytes: &[u8], limit: u64, out: &mut Vec<u8>) -> Result<(), ReadFail>
    requires { out.old.items ≡ [] }
    ensures { Gives bytes.now limit out.new.items result }
{
    let len = bytes.len() as u64;
    if len > limit {
        out.extend_from_slice(&bytes[..limit as usize + 1])?;
        return Err(ReadFail::TooLong);
    }
    out.extend_from_slice(bytes)?;
    Ok(())
}

impl Host for MemoryHost {
    ghost use Rattle.poke_base.specs.Host.{ReadsFile, MakesFile, Appends, Prints, Complains, with_more, with_appended};
    ghost use Rattle.poke_base.specs.MemoryHost.{outside_of, counted, counted_failed, IsCall, IsListed, IsMissing, Starves, AddsHalf};

    ghost outside = { outside_of };

    fn read_file(&mut self, name: &str, limit: u64, out: &mut Vec<u8>) -> Result<(), ReadFail>
        requires { out.old.items ≡ [] }
        ensures reads { ReadsFile (outside_of self.old) (outside_of self.new) name.now limit out.new.items result }
        ensures fails { (result ≡ Err ReadFail.Failed) ↔ (IsListed self.old ⊎ Starves self.old self.new ⊎ IsMissing self.old name.now) }
        ensures nothing_read { result ≡ Err ReadFail.Failed → out.new.items ≡ [] }
        ensures count { (outside_of self.new).read_faults ≡ counted_failed (outside_of self.old).read_faults result }
        ensures call { IsCall self.old self.new }
    {
        let listed = self.begin();
        if self.ask(name, AskedBy::Read).is_err() {
            return Err(self.read_fault());
        }
        if listed {
            return Err(self.read_fault());
        }
        let Some(bytes) = self.store.file(name) else {
            return Err(self.read_fault());
        };
        give(bytes, limit, out)
    }

    fn make_file(&mut self, name: &str) -> Result<(), WriteFail>
        ensures makes { MakesFile (outside_of self.old) (outside_of self.new) name.now result }
        ensures fails { IsErr result ↔ (IsListed self.old ⊎ Starves self.old self.new) }
        ensures unchanged { OnErr result ((outside_of self.new).files ≡ (outside_of self.old).files) }
        ensures count { (outside_of self.new).write_faults ≡ counted (outside_of self.old).write_faults result }
        ensures call { IsCall self.old self.new }
    {
        let listed = self.begin();
        self.store.stop();
        if self.ask(name, AskedBy::Make).is_err() {
            return Err(self.write_fault());
        }
        if listed {
            return Err(self.write_fault());
        }
        if self.store.make(self.alloc, name).is_err() {
            self.starve();
            return Err(self.write_fault());
        }
        Ok(())
    }

    fn append(&mut self, piece: &[u8]) -> Result<(), WriteFail>
        requires { IsSome (outside_of self.old).making }
        ensures appends { Appends (outside_of self.old) (outside_of self.new) piece.now result }
        ensures fails { IsErr result ↔ (IsListed self.old ⊎ Starves self.old self.new) }
        ensures half { AddsHalf self.old self.new (outside_of self.old).files (with_appended (outside_of self.old)) (outside_of self.new).files piece.now result }
        ensures count { (outside_of self.new).write_faults ≡ counted (outside_of self.old).write_faults result }
        ensures call { IsCall self.old self.new }
    {
        let listed = self.begin();
        if self.starved == u64::MAX {
            return Err(self.write_fault());
        }
        if self.store.append(attempted(piece, listed)).is_err() {
            self.starve();
            return Err(self.write_fault());
        }
        if listed {
            return Err(self.write_fault());
        }
        Ok(())
    }

    fn print(&mut self, piece: &[u8]) -> Result<(), WriteFail>
        ensures prints { Prints (outside_of self.old) (outside_of self.new) piece.now result }
        ensures fails { IsErr result ↔ (IsListed self.old ⊎ Starves self.old self.new) }
        ensures half { AddsHalf self.old self.new (outside_of self.old).printed (with_more (outside_of self.old).printed) (outside_of self.new).printed piece.now result }
        ensures count { (outside_of self.new).write_faults ≡ counted (outside_of self.old).write_faults result }
        ensures call { IsCall self.old self.new }
    {
        let listed = self.begin();
        if self.starved == u64::MAX {
            return Err(self.write_fault());
        }
        let added = self.printed.extend_from_slice(attempted(piece, listed));
        if added.is_err() {
            self.starve();
            return Err(self.write_fault());
        }
        if listed {
            return Err(self.write_fault());
        }
        Ok(())
    }

    fn complain(&mut self, piece: &[u8]) -> Result<(), WriteFail>
        ensures complains { Complains (outside_of self.old) (outside_of self.new) piece.now result }
        ensures fails { IsErr result ↔ (IsListed self.old ⊎ Starves self.old self.new) }
        ensures half { AddsHalf self.old self.new (outside_of self.old).complained (with_more (outside_of self.old).complained) (outside_of self.new).complained piece.now result }
        ensures count { (outside_of self.new).complain_faults ≡ counted (outside_of self.old).complain_faults result }
        ensures call { IsCall self.old self.new }
    {
        let listed = self.begin();
        if self.starved == u64::MAX {
            return Err(self.complain_fault());
        }
        let added = self.complained.extend_from_slice(attempted(piece, listed));
        if added.is_err() {
            self.starve();
            return Err(self.complain_fault());
        }
        if listed {
            return Err(self.complain_fault());
        }
        Ok(())
    }
}
