//! Reading a stream to its end within a limit, and writing a whole piece.
ghost use Rattle.std.specs.Prelude.{◌≡◌, ◌≤◌, ◌+◌, Some, [], length, vec_len, IfSome, IfOk, OnOk, IsErrOf};
ghost use Rattle.std.specs.Io.KnownBytes.{WriteAppends};
ghost use Rattle.poke_base.specs.Host.{ReadsFrom};
ghost use Rattle.real_host.specs.Written.{Writes};

use poke_base::{ReadFail, WriteFail};
use std::io::{ErrorKind, Read, Write};

/// How many bytes one read asks for at most.
const BUFFER_LEN: usize = 4096;

/// Reads a stream of at most `limit` bytes to its end into `out`, which has to be empty. A read that a
/// signal interrupted is tried again.
///
/// # Errors
/// `Failed` where a read failed, `NoMemory` where there was no memory for the bytes: `out` is a prefix of the
/// stream. `TooLong` where the stream has more than `limit` bytes: `out` is its first `limit + 1` bytes.
pub fn read_within<F: Read>(from: &mut F, limit: u64, out: &mut Vec<u8>) -> Result<(), ReadFail>
    requires { out.old.items ≡ [] }
    ensures fits { OnOk result (vec_len out.new ≤ limit) }
    ensures too_long { IsErrOf result ReadFail.TooLong → vec_len out.new ≡ limit + 1 }
    ensures reads { IfSome (F.remaining from.old) (λ bytes. ReadsFrom (Some bytes) out.new.items result) }
{
    let mut buffer = [0u8; BUFFER_LEN];
    'reads: for _ in 0..u64::MAX {
        let len = out.len() as u64;
        if len > limit {
            return Err(ReadFail::TooLong);
        }
        let wanted = (limit - len).min(BUFFER_LEN as u64 - 1) as usize + 1;
        match from.read(&mut buffer[..wanted]) {
            Ok(0) => return Ok(()),
            Ok(count) => out.extend_from_slice(&buffer[..count])?,
            Err(fail) => {
                if fail.kind() != ErrorKind::Interrupted {
                    return Err(ReadFail::Failed);
                }
            }
        }
    }
    Err(ReadFail::Failed)
}

/// Writes some bytes and says how many; none where a signal interrupted the write.
///
/// # Errors
/// `WriteFail` where the write failed or took nothing: nothing was written.
fn write_some<W: Write>(to: &mut W, bytes: &[u8]) -> Result<usize, WriteFail>
    ensures short { IfOk result (λ n. n ≤ length bytes.now) }
    ensures writes { WriteAppends (W.contents to.old) (W.contents to.new) result bytes.now }
{
    match to.write(bytes) {
        Ok(0) => Err(WriteFail),
        Ok(count) => Ok(count),
        Err(fail) if fail.kind() == ErrorKind::Interrupted => Ok(0),
        Err(_) => Err(WriteFail),
    }
}

/// Writes a whole piece. A write that a signal interrupted is tried again.
///
/// # Errors
/// `WriteFail` where a write failed or took nothing: a prefix of the piece was written.
pub fn write_piece<W: Write>(to: &mut W, piece: &[u8]) -> Result<(), WriteFail>
    ensures { Writes (W.contents to.old) (W.contents to.new) piece.now result }
{
    let mut rest = piece;
    'writes: for _ in 0..u64::MAX {
        if rest.is_empty() {
            return Ok(());
        }
        let count = write_some(to, rest)?;
        rest = &rest[count..];
    }
    Err(WriteFail)
}

#[cfg(test)]
mod tests {
    use super::*;
    use std::alloc::Global;
    use std::io;
    use std::test::Fail;

    /// A reader that fails once between some bytes and the others.
    #[derive(Drop)]
    struct Shaky<'a> {
        rest: &'a [u8],
        fails: Option<ErrorKind>,
        after: &'a [u8],
    }

    impl Read for Shaky<'_> {
        fn read(&mut self, buf: &mut [u8]) -> io::Result<usize> {
            if !self.rest.is_empty() {
                return self.rest.read(buf);
            }
            match self.fails.take() {
                Some(kind) => Err(io::Error::from(kind)),
                None => self.after.read(buf),
            }
        }
    }

    /// A writer that takes a byte at a time, is interrupted before the first, and has room for some.
    #[derive(Drop)]
    struct Narrow {
        taken: Vec<u8>,
        room: usize,
        begun: bool,
    }

    impl Write for Narrow {
        fn write(&mut self, buf: &[u8]) -> io::Result<usize> {
            if !self.begun {
                self.begun = true;
                return Err(io::Error::from(ErrorKind::Interrupted));
            }
            if self.taken.len() >= self.room {
                return Err(io::Error::from(ErrorKind::Other));
            }
            let Some(byte) = buf.first() else {
                return Ok(0);
            };
            self.taken.push(*byte)?;
            Ok(1)
        }

        fn flush(&mut self) -> io::Result<()> {
            Ok(())
        }
    }

    /// More than three buffers.
    const LEN: usize = 3 * BUFFER_LEN + 1;

    /// Bytes that differ from one buffer to the next.
    fn pattern(alloc: Global, len: usize) -> Result<Vec<u8>, Fail> {
        let mut bytes = Vec::new(alloc);
        for i in 0..len {
            bytes.push((i % 251) as u8)?;
        }
        Ok(bytes)
    }

    #[test]
    fn reads_within_a_limit(rt: HostRuntime) -> Result<(), Fail> {
        let bytes = pattern(rt.alloc(), LEN)?;
        let reads: [(u64, Result<(), ReadFail>, usize); 6] = [
            (u64::MAX, Ok(()), LEN),
            (LEN as u64 + 1, Ok(()), LEN),
            (LEN as u64, Ok(()), LEN),
            (LEN as u64 - 1, Err(ReadFail::TooLong), LEN),
            (4096, Err(ReadFail::TooLong), 4097),
            (0, Err(ReadFail::TooLong), 1),
        ];
        for (limit, answer, count) in reads {
            let mut out = Vec::new(rt.alloc());
            assert_eq!(rt;
                read_within(&mut bytes.as_slice(), limit, &mut out),
                answer,
                "at {limit}"
            );
            assert_eq!(rt; Some(out.as_slice()), bytes.get(..count), "at {limit}");
        }
        Ok(())
    }

    #[test]
    fn reads_on_after_an_interruption_alone(rt: HostRuntime) -> Result<(), Fail> {
        let reads: [(Option<ErrorKind>, Result<(), ReadFail>, &[u8]); 3] = [
            (None, Ok(()), b"abcde"),
            (Some(ErrorKind::Interrupted), Ok(()), b"abcde"),
            (Some(ErrorKind::Other), Err(ReadFail::Failed), b"abc"),
        ];
        for (fails, answer, bytes) in reads {
            let mut from = Shaky {
                rest: b"abc",
                fails,
                after: b"de",
            };
            let mut out = Vec::new(rt.alloc());
            assert_eq!(rt; read_within(&mut from, 5, &mut out), answer);
            assert_eq!(rt; out.as_slice(), bytes);
        }
        Ok(())
    }

    #[test]
    fn writes_whole_pieces(rt: HostRuntime) -> Result<(), Fail> {
        let writes: [(usize, Result<(), WriteFail>, &[u8]); 3] = [
            (9, Ok(()), b"abcde"),
            (5, Ok(()), b"abcde"),
            (3, Err(WriteFail), b"abc"),
        ];
        for (room, answer, bytes) in writes {
            let mut to = Narrow {
                taken: Vec::new(rt.alloc()),
                room,
                begun: false,
            };
            assert_eq!(rt; write_piece(&mut to, b"abcde"), answer);
            assert_eq!(rt; to.taken.as_slice(), bytes);
        }
        Ok(())
    }
}
