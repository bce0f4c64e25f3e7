//! Any writer as a sink: what the system's standard output has to be, and nothing more.
ghost use Rattle.std.specs.Prelude.{◌≡◌, ℕ, ◌<◌, ◌≤◌, length, take, IfOk, OnOk, OnErr};
ghost use Rattle.std.specs.Io.KnownBytes.{Keeps, Appends, WriteAppends};
ghost use Rattle.outside.specs.Counts.{HasRisen, NeverFalls};
ghost use Rattle.outside.specs.Streams.{AppendsSome};

use crate::errors::Failed;
use std::io;
use std::io::{ErrorKind, Write};

/// One write of some of the bytes, tried again where the system interrupted it.
pub fn write_once<W: Write>(out: &mut W, bytes: &[u8]) -> io::Result<usize>
    ensures bound { IfOk result (λ n. n ≤ length bytes.now) }
    ensures bytes { WriteAppends (W.contents out.old) (W.contents out.new) result bytes.now }
{
    for _ in 0..u64::MAX {
        match out.write(bytes) {
            Err(error) if error.kind() == ErrorKind::Interrupted => {}
            other => return other,
        }
    }
    Err(io::Error::from(ErrorKind::Interrupted))
}

/// Flushes, and tries it again where the system interrupted it.
pub fn flush_once<W: Write>(out: &mut W) -> io::Result<()>
    ensures { Keeps (W.contents out.old) (W.contents out.new) }
{
    for _ in 0..u64::MAX {
        match out.flush() {
            Err(error) if error.kind() == ErrorKind::Interrupted => {}
            other => return other,
        }
    }
    Err(io::Error::from(ErrorKind::Interrupted))
}

/// Writes the front of the bytes, gives its length, and flushes. Where the write fails, nothing was written.
pub fn write_to<W: Write>(out: &mut W, bytes: &[u8]) -> io::Result<usize>
    ensures bound { IfOk result (λ n. n ≤ length bytes.now) }
    ensures ok { IfOk result (λ n. Appends (W.contents out.old) (W.contents out.new) (take n bytes.now)) }
    ensures err { OnErr result (AppendsSome (W.contents out.old) (W.contents out.new) bytes.now) }
{
    let n = write_once(out, bytes)?;
    flush_once(out)?;
    Ok(n)
}

/// Puts the front of the bytes, at least one of them, into a writer, and gives the number of bytes taken.
///
/// It fails only where it counted a fault: where the writer failed, or took nothing. Bytes were then taken
/// only where it was the flush that failed.
pub fn put_to<W: Write>(out: &mut W, faults: &mut u64, bytes: &[u8]) -> Result<usize, Failed>
    requires { 0 < length bytes.now }
    ensures some { IfOk result (λ n. 0 < n) }
    ensures bound { IfOk result (λ n. n ≤ length bytes.now) }
    ensures ok { IfOk result (λ n. Appends (W.contents out.old) (W.contents out.new) (take n bytes.now)) }
    ensures err { OnErr result (AppendsSome (W.contents out.old) (W.contents out.new) bytes.now) }

    // A failure is counted, and a put that doesn't fail counts nothing.
    ensures cause { OnErr result (HasRisen faults.old faults.new) }
    ensures never_falls { NeverFalls faults.old faults.new }
    ensures ok_stays { OnOk result (faults.new ≡ faults.old) }
{
    match write_to(out, bytes) {
        Ok(n) if n > 0 => Ok(n),
        _ => {
            *faults = faults.saturating_add(1);
            Err(Failed)
        }
    }
}
