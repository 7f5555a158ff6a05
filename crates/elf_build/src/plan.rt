//! What a written module is to hold.
ghost use Rattle.std.specs.Prelude.{◌≡◌, ◌==◌, not};
ghost use Rattle.std.specs.List.{list_all};
ghost use Rattle.elf_build.specs.Fits.{is_name};

use arrayvec::ArrayVec;

/// The name of a key or function, 1 to 64 bytes, none of them zero.
pub type Name = ArrayVec<u8, 64>;

/// What a module is to hold. Addresses lie in the text, which begins at `base`.
#[derive(Debug, PartialEq, Eq, Drop)]
pub struct Plan {
    /// The address of the text.
    pub base: u64,
    /// The bytes of the text.
    pub text: Vec<u8>,
    /// The places that are patched, in the order of their tables' entries.
    pub sites: Vec<PlanSite>,
    /// The keys, by their number.
    pub keys: Vec<PlanKey>,
    /// The functions of the text.
    pub functions: Vec<PlanFunction>,
}

/// A place that is patched; keys by their number in the plan.
#[derive(Clone, Copy, Debug, PartialEq, Eq)]
pub enum PlanSite {
    /// A jump that a static key switches.
    Jump {
        at: u64,
        target: u64,
        key: u32,
        likely: bool,
    },
    /// A static call, or a tail call.
    Call {
        at: u64,
        key: u32,
        tail: bool,
    },
    /// The place at a function's begin from which it is traced.
    Trace {
        at: u64,
    },
}

/// A static key, or the key of a static call.
#[derive(Debug, PartialEq, Eq, Drop)]
pub struct PlanKey {
    pub name: Name,
    pub start: KeyStart,
}

/// What a key holds at the start.
#[derive(Clone, Copy, Debug, PartialEq, Eq)]
pub enum KeyStart {
    /// How often a static key is enabled.
    Count(u32),
    /// The function that is called; 0 is none.
    Func(u64),
}

/// A function of the text.
#[derive(Debug, PartialEq, Eq, Drop)]
pub struct PlanFunction {
    pub name: Name,
    pub at: u64,
}

impl Plan {
    ghost use Rattle.std.specs.Prelude.{slice_get};
    ghost use Rattle.std.specs.List.{list_all};
    ghost use Rattle.elf_build.specs.Fits.{fits, function_fits, has_place, is_small, key_fits, is_callee, is_in_text, is_switch, site_fits};

    /// Whether a file can be written of the plan: `base` is a multiple of 4096 and at most
    /// 2^64 - 1048576; the text has 1 to 65,536 bytes; there are at most 1,024 sites, 1,024 keys and
    /// 2,048 functions; all addresses lie in the text; every site's key is there and of its class;
    /// every count is at most 2147483647; every name has 1 to 64 bytes, none of them zero.
    pub fn fits(&self) -> bool
        ensures { result ≡ fits self.now }
    {
        self.has_place()
            && self.is_small()
            && self.holds_sites()
            && self.holds_keys()
            && self.holds_functions()
    }

    /// Whether the text begins at a page from which all addresses of the file can be reached.
    fn has_place(&self) -> bool
        ensures { result ≡ has_place self.now }
    {
        self.base % 4096 == 0 && self.base <= 0xffff_ffff_fff0_0000
    }

    /// Whether there is a text, and nothing of the plan is too many.
    fn is_small(&self) -> bool
        ensures { result ≡ is_small self.now }
    {
        !self.text.is_empty()
            && self.text.len() <= 65_536
            && self.sites.len() <= 1_024
            && self.keys.len() <= 1_024
            && self.functions.len() <= 2_048
    }

    fn holds_sites(&self) -> bool
        ensures { result ≡ list_all (site_fits self.now) self.now.sites.items }
    {
        self.sites.iter().all(|site| self.holds_site(site))
    }

    fn holds_keys(&self) -> bool
        ensures { result ≡ list_all key_fits self.now.keys.items }
    {
        self.keys.iter().all(|key| key.fits())
    }

    fn holds_functions(&self) -> bool
        ensures { result ≡ list_all (function_fits self.now) self.now.functions.items }
    {
        self.functions
            .iter()
            .all(|function| self.holds_function(function))
    }

    fn holds_site(&self, site: &PlanSite) -> bool
        ensures { result ≡ site_fits self.now site.now }
    {
        match *site {
            PlanSite::Jump {
                at,
                target,
                key,
                ..
            } => self.is_in_text(at) && self.is_in_text(target) && self.is_switch(key),
            PlanSite::Call { at, key, .. } => self.is_in_text(at) && self.is_callee(key),
            PlanSite::Trace { at } => self.is_in_text(at),
        }
    }

    fn holds_function(&self, function: &PlanFunction) -> bool
        ensures { result ≡ function_fits self.now function.now }
    {
        is_name(&function.name) && self.is_in_text(function.at)
    }

    fn is_in_text(&self, at: u64) -> bool
        ensures { result ≡ is_in_text self.now at }
    {
        self.base <= at && at - self.base < self.text.len() as u64
    }

    /// Whether this is the number of a static key.
    fn is_switch(&self, key: u32) -> bool
        ensures { result ≡ is_switch (slice_get self.now.keys.items key) }
    {
        match self.keys.get(key as usize) {
            Some(key) => matches!(key.start, KeyStart::Count(_)),
            None => false,
        }
    }

    /// Whether this is the number of a static call's key.
    fn is_callee(&self, key: u32) -> bool
        ensures { result ≡ is_callee (slice_get self.now.keys.items key) }
    {
        match self.keys.get(key as usize) {
            Some(key) => matches!(key.start, KeyStart::Func(_)),
            None => false,
        }
    }
}

impl PlanKey {
    ghost use Rattle.elf_build.specs.Fits.{key_fits};

    fn fits(&self) -> bool
        ensures { result ≡ key_fits self.now }
    {
        is_name(&self.name)
            && match self.start {
                KeyStart::Count(count) => count <= 2_147_483_647,
                KeyStart::Func(_) => true,
            }
    }
}

/// 1 to 64 bytes, none of them zero.
fn is_name(name: &Name) -> bool
    ensures { result ≡ is_name name.now.items }
{
    !name.is_empty() && name.len() <= 64 && has_no_zero(name)
}

fn has_no_zero(bytes: &[u8]) -> bool
    ensures { result ≡ list_all (λ byte. not (byte == 0)) bytes.now }
{
    bytes.iter().all(|byte| *byte != 0)
}
