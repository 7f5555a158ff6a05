//! Commands on a module.

/// What is asked of a module: what a key is to hold, or which sites are traced.
#[derive(Clone, Copy, Debug, PartialEq, Eq)]
pub enum Command {
    /// Adds one to the count of the static key with this number (Linux: `static_key_slow_inc`).
    Inc(u32),
    /// Takes one from the count of the static key with this number (Linux: `static_key_slow_dec`).
    Dec(u32),
    /// Makes the count of the static key with this number 1 where it is 0 (Linux: `static_key_enable`).
    Enable(u32),
    /// Makes the count of the static key with this number 0 where it is 1 (Linux: `static_key_disable`).
    Disable(u32),
    /// Gives the static call's key with this number the function at an address; 0 is the null function, so that
    /// the key has none (Linux: `static_call_update`).
    Target(u32, u64),
    /// Turns the tracing of the site with this number on or off (Linux: ftrace).
    Trace(u32, bool),
    /// Turns the tracing of all trace sites on or off.
    TraceAll(bool),
}
