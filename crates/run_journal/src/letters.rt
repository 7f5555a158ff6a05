//! The letters with which the lines of events begin, for spelling and for reading.

/// The next update or drop begins.
pub(crate) const BEGIN: u8 = b'b';
/// The due byte is written.
pub(crate) const WRITE: u8 = b'w';
/// All processors are asked to serialise.
pub(crate) const REQUEST: u8 = b's';
/// A processor takes the request.
pub(crate) const TAKE: u8 = b't';
/// The update returns.
pub(crate) const RETURN: u8 = b'r';
/// A plain instruction.
pub(crate) const PLAIN: u8 = b'p';
/// A fetch at a patched site.
pub(crate) const AT: u8 = b'a';
/// The run of a breakpoint handler.
pub(crate) const HANDLE: u8 = b'h';
/// A turn after the end.
pub(crate) const TICK: u8 = b'i';
