//! Writing a text whole.
ghost use Rattle.std.specs.Prelude.{◌≡◌, ◌↔◌, IsSome, OnOk, OnErr};
ghost use Rattle.outside.specs.Counts.{HasRisen, NeverFalls};
ghost use Rattle.outside.specs.Written.{Gains, GainsPrefix};

use crate::errors::WriteError;
use crate::sink::Sink;

/// Appends all bytes. It takes no memory.
///
/// It fails only where a put counted a fault, and then a prefix of the bytes was appended.
pub fn write_all<K: Sink>(sink: &mut K, bytes: &[u8]) -> Result<(), WriteError>
    ensures ok { OnOk result (Gains (K.written sink.old) (K.written sink.new) bytes.now) }
    ensures err { OnErr result (GainsPrefix (K.written sink.old) (K.written sink.new) bytes.now) }
    ensures told { IsSome (K.written sink.new) ↔ IsSome (K.written sink.old) }

    // A failed put is counted, and a text that was written whole counts nothing.
    ensures cause { OnErr result (HasRisen (K.faults sink.old) (K.faults sink.new)) }
    ensures never_falls { NeverFalls (K.faults sink.old) (K.faults sink.new) }
    ensures ok_stays { OnOk result (K.faults sink.new ≡ K.faults sink.old) }
{
    let mut done = 0;
    while done < bytes.len() {
        let Ok(n) = sink.put(&bytes[done..]) else {
            return Err(WriteError::Failed);
        };
        done += n;
    }
    Ok(())
}
