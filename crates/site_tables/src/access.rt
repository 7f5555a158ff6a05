//! The entries of a table that was found, by their number.
ghost use Rattle.std.specs.Prelude.{◌≡◌, ◌<◌, Some, slice_get};
ghost use Rattle.site_tables.specs.Access.{jumps_of, calls_of, traces_of};

use crate::entries::{CallSite, JumpEntry, TableKind, call_site, jump_entry, trace_site};
use crate::tables::Table;

impl Table<'_> {
    /// The entry of a jump table with a number below its count.
    pub fn jump_entry(&self, i: u32) -> JumpEntry
        requires kind { self.now.kind ≡ TableKind.Jump }
        requires there { i < self.now.count }
        ensures { slice_get (jumps_of self.now) i ≡ Some result }
    {
        let section = self.section.as_ref().unwrap();
        jump_entry(section, i)
    }

    /// The site of a table of static calls with a number below its count.
    pub fn call_site(&self, i: u32) -> CallSite
        requires kind { self.now.kind ≡ TableKind.Call }
        requires there { i < self.now.count }
        ensures { slice_get (calls_of self.now) i ≡ Some result }
    {
        let section = self.section.as_ref().unwrap();
        call_site(section, i)
    }

    /// The address of a table of traced functions with a number below its count.
    pub fn trace_site(&self, i: u32) -> u64
        requires kind { self.now.kind ≡ TableKind.Trace }
        requires there { i < self.now.count }
        ensures { slice_get (traces_of self.now) i ≡ Some result }
    {
        let section = self.section.as_ref().unwrap();
        trace_site(section, i)
    }
}
