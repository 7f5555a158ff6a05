//! The files of a host in memory.
ghost use Rattle.std.specs.Prelude.{◌≡◌, ℕ, List, [], Some, None, IsSome, OnOk, OnErr, unwrap_or, option_map};
ghost use Rattle.std.specs.FinMap.{empty, get, insert};
ghost use Rattle.std.specs.BTreeMap.{get_by_text};
ghost use Rattle.poke_base.specs.Host.{appended};
ghost use Rattle.poke_base.specs.Stored.{files_in, added};

use crate::NoMemory;
use std::alloc::Global;
use std::collections::BTreeMap;
use std::marker::Model;

/// Files by their names, and the name of the file that is being made, which is one of them.
#[derive(Drop)]
pub(crate) struct Store {
    files: BTreeMap<String, Vec<u8>>,
    making: Option<String>,
}

impl Model for Store {
    ghost use Rattle.std.specs.Prelude.{option_map, string_bytes, IsSome};
    ghost use Rattle.std.specs.Option.{ForSome};
    ghost use Rattle.std.specs.BTreeMap.{get_by_text};
    ghost use Rattle.poke_base.specs.Stored.{Stored, stored_code, files_in};

    ghost Value = { Stored };

    ghost coded = { stored_code };

    ghost view = { λ s. record { files = files_in s.files.entries; making = option_map string_bytes s.making } };

    ghost invariant = { λ s. ForSome s.making (λ name. IsSome (get_by_text s.files (string_bytes name))) };
}

impl Store {
    /// No file, and none that is being made.
    pub(crate) fn new(alloc: Global) -> Self
        ensures { result ≡ record { files = empty; making = None } }
    {
        Store {
            files: BTreeMap::new(alloc),
            making: None,
        }
    }

    /// The bytes of a file, if it is there.
    pub(crate) fn file(&self, name: &str) -> Option<&[u8]>
        ensures { option_map (λ bytes. bytes.now) result ≡ get self.now.files name.now }
    {
        match self.files.get(name) {
            Some(bytes) => Some(bytes.as_slice()),
            None => None,
        }
    }

    /// Puts a file there, or other bytes into it.
    ///
    /// # Errors
    /// Out of memory, which leaves everything as it was.
    pub(crate) fn put(&mut self, alloc: Global, name: &str, bytes: &[u8]) -> Result<(), NoMemory>
        ensures ok { OnOk result (self.new ≡ record self.old { files = insert self.old.files name.now bytes.now }) }
        ensures err { OnErr result (self.new ≡ self.old) }
    {
        let key = String::from_str(alloc, name)?;
        let value = Vec::from_slice(alloc, bytes)?;
        self.files.insert(key, value)?;
        Ok(())
    }

    /// Makes a file empty, which is then the file being made.
    ///
    /// # Errors
    /// Out of memory, which leaves everything as it was.
    pub(crate) fn make(&mut self, alloc: Global, name: &str) -> Result<(), NoMemory>
        ensures ok { OnOk result (self.new ≡ record { files = insert self.old.files name.now []; making = Some name.now }) }
        ensures err { OnErr result (self.new ≡ self.old) }
    {
        let making = String::from_str(alloc, name)?;
        self.put(alloc, name, &[])?;
        self.making = Some(making);
        Ok(())
    }

    /// From here on no file is being made.
    pub(crate) fn stop(&mut self)
        ensures { self.new ≡ record self.old { making = None } }
    {
        self.making = None;
    }

    /// Adds a piece to the file being made.
    ///
    /// # Errors
    /// Out of memory, which leaves everything as it was.
    pub(crate) fn append(&mut self, piece: &[u8]) -> Result<(), NoMemory>
        requires { IsSome self.old.making }
        ensures ok { OnOk result (self.new ≡ record self.old { files = appended self.old.files (unwrap_or self.old.making []) piece.now }) }
        ensures err { OnErr result (self.new ≡ self.old) }
    {
        if piece.is_empty() {
            return Ok(());
        }
        let Some(name) = &self.making else {
            return Ok(());
        };
        extend(&mut self.files, name.as_str(), piece)
    }
}

/// Adds a piece to the bytes of a file that is there.
fn extend(files: &mut BTreeMap<String, Vec<u8>>, name: &str, piece: &[u8]) -> Result<(), NoMemory>
    requires { IsSome (get_by_text files.old name.now) }
    ensures ok { OnOk result (files_in files.new.entries ≡ added (files_in files.old.entries) name.now piece.now) }
    ensures err { OnErr result (files_in files.new.entries ≡ files_in files.old.entries) }
    ensures stays { (other : List ℕ) → IsSome (get_by_text files.old other) → IsSome (get_by_text files.new other) }
{
    let Some(bytes) = files.get_mut(name) else {
        return Ok(());
    };
    bytes.extend_from_slice(piece)?;
    Ok(())
}
