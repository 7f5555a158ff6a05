//! The keys that a module's entries name, by their addresses.
ghost use Rattle.std.specs.Prelude.{◌≡◌, ◌≤◌, ◌<◌, ◌+◌, ◌++◌, ℕ, Some, [], length, map, slice_get, IfOk, IfErr, OnOk};
ghost use Rattle.module_names.specs.Keys.{key_in, with_key, with_named, gathered, place_in, number_of};
ghost use Rattle.module_names.specs.KeyList.{IsRising};
ghost use Rattle.module_parts.specs.declared.key.Key.{Key};
ghost use Rattle.module_parts.specs.declared.key.KeyClass.{KeyClass};
ghost use Rattle.module_parts.specs.declared.key.KeyClass.TheVariants.{Jump, Call};
ghost use Rattle.module_parts.specs.declared.refused.Refused.TheVariants.{NoMemory};

use module_parts::{Entry, EntryKind, KeyClass, Refused};
use std::alloc::Global;

/// The addresses of a module's keys by class. Those of a class ascend, and each stands once.
#[derive(Drop)]
pub struct KeyAddresses {
    /// Those of static keys.
    pub jumps: Vec<u64>,
    /// Those of static calls' keys.
    pub calls: Vec<u64>,
    ghost jumps_rise: { IsRising jumps.items },
    ghost calls_rise: { IsRising calls.items },
    ghost jumps_few: { length jumps.items ≤ 1024 },
    ghost calls_few: { length calls.items ≤ 1024 },
}

impl KeyAddresses {
    /// The keys that entries name.
    ///
    /// # Errors
    /// Where there is no memory.
    pub fn of(alloc: Global, list: &[Entry]) -> Result<KeyAddresses, Refused>
        requires { length list.now ≤ 1024 }
        ensures jumps { IfOk result (λ found. found.jumps.items ≡ gathered Jump list.now []) }
        ensures calls { IfOk result (λ found. found.calls.items ≡ gathered Call list.now []) }
        ensures failed { IfErr result (λ why. why ≡ NoMemory) }
    {
        let jumps = addresses_of(alloc, list, KeyClass::Jump)?;
        let calls = addresses_of(alloc, list, KeyClass::Call)?;
        Ok(KeyAddresses { jumps, calls })
    }

    /// How many keys there are.
    pub fn count(&self) -> u32
        ensures { result ≡ length self.now.jumps.items + length self.now.calls.items }
    {
        (self.jumps.len() + self.calls.len()) as u32
    }

    /// The class and the address of the key with a number below the count.
    pub fn key(&self, i: u32) -> (KeyClass, u64)
        requires { i < length self.now.jumps.items + length self.now.calls.items }
        ensures { (of : KeyClass → ℕ → Key) → slice_get (map (of Jump) self.now.jumps.items ++ map (of Call) self.now.calls.items) i ≡ Some (of result.0 result.1) }
    {
        let i = i as usize;
        let jumps = self.jumps.len();
        if i < jumps {
            (KeyClass::Jump, self.jumps[i])
        } else {
            (KeyClass::Call, self.calls[i - jumps])
        }
    }

    /// The number of a key: its place among all keys, of which those of jumps stand first.
    pub fn number(&self, class: KeyClass, key: u64) -> u32
        ensures { result ≡ number_of self.now.jumps.items self.now.calls.items class key }
    {
        match class {
            KeyClass::Jump => place_of(&self.jumps, key),
            KeyClass::Call => self.jumps.len() as u32 + place_of(&self.calls, key),
        }
    }
}

/// The place of a key among the addresses of its class; the length where it isn't there.
pub fn place_of(keys: &[u64], key: u64) -> u32
    requires rising { IsRising keys.now }
    requires few { length keys.now ≤ 1024 }
    ensures is { result ≡ place_in key keys.now }
    ensures within { result ≤ length keys.now }
{
    match keys.binary_search(&key) {
        Ok(place) => place as u32,
        Err(_) => keys.len() as u32,
    }
}

/// The addresses of the keys of a class that entries name: ascending, each once.
fn addresses_of(alloc: Global, list: &[Entry], class: KeyClass) -> Result<Vec<u64>, Refused>
    ensures list { IfOk result (λ found. found.items ≡ gathered class list.now []) }
    ensures rising { IfOk result (λ found. IsRising found.items) }
    ensures failed { IfErr result (λ why. why ≡ NoMemory) }
    ensures few { IfOk result (λ found. length found.items ≤ length list.now) }
{
    let mut found = Vec::new(alloc);
    for entry in list {
        add_named(&mut found, key_in(class, entry.kind))?;
    }
    Ok(found)
}

/// The key of a class that an entry of this kind names.
fn key_in(class: KeyClass, kind: EntryKind) -> Option<u64>
    ensures { result ≡ key_in class kind }
{
    match (class, kind) {
        (KeyClass::Jump, EntryKind::Jump { key, .. }) => Some(key),
        (KeyClass::Call, EntryKind::Call { key } | EntryKind::Tail { key }) => Some(key),
        _ => None,
    }
}

/// Adds a key, if there is one, where its address isn't there yet.
fn add_named(keys: &mut Vec<u64>, key: Option<u64>) -> Result<(), Refused>
    requires { IsRising keys.old.items }
    ensures with_named { OnOk result (keys.new.items ≡ with_named key keys.old.items) }
    ensures rising { OnOk result (IsRising keys.new.items) }
    ensures few { OnOk result (length keys.new.items ≤ length keys.old.items + 1) }
    ensures failed { IfErr result (λ why. why ≡ NoMemory) }
{
    match key {
        Some(key) => add_key(keys, key),
        None => Ok(()),
    }
}

/// Adds a key where its address isn't there yet.
fn add_key(keys: &mut Vec<u64>, key: u64) -> Result<(), Refused>
    requires { IsRising keys.old.items }
    ensures with_key { OnOk result (keys.new.items ≡ with_key key keys.old.items) }
    ensures failed { IfErr result (λ why. why ≡ NoMemory) }
{
    match keys.binary_search(&key) {
        Ok(_) => Ok(()),
        Err(place) => Ok(keys.insert(place, key)?),
    }
}
