//! Reading a file whole.
ghost use Rattle.std.specs.Prelude.{◌≡◌, ◌≢◌, ℕ, ◌<◌, ◌≤◌, List, Err, length, vec_len, IfOk, IfSome, IsSome, IsErrOf};
ghost use Rattle.outside.specs.Counts.{HasRisen, NeverFalls};

use crate::errors::ReadError;
use crate::files::Files;
use std::alloc::Global;

/// The bytes of a piece that is asked for at once.
const PIECE: usize = 4096;

/// Gives the whole contents of the file `name`, which may have at most `limit` bytes.
///
/// It fails only where a read counted a fault of this name. A longer file is refused with the limit.
pub fn read_all<F: Files>(
    alloc: Global,
    files: &mut F,
    name: &str,
    limit: u64,
) -> Result<Vec<u8>, ReadError>
    ensures whole { IfOk result (λ v.
        IfSome (F.contents files.old name.now) (λ c. v.items ≡ c)) }
    ensures bound { IfOk result (λ v. vec_len v ≤ limit) }
    ensures the_limit { (n : ℕ) → IsErrOf result (ReadError.TooLong n) → n ≡ limit }
    ensures too_long { IsErrOf result (ReadError.TooLong limit) →
        IfSome (F.contents files.old name.now) (λ c. limit < length c) }
    ensures contents_stay { (other : List ℕ) →
        F.contents files.new other ≡ F.contents files.old other }

    // A failed read is counted at its name. It counts at no other name whose contents are told, and any
    // other answer counts nothing.
    ensures cause { IsErrOf result ReadError.Failed →
        HasRisen (F.faults files.old name.now) (F.faults files.new name.now) }
    ensures never_fall { (other : List ℕ) →
        NeverFalls (F.faults files.old other) (F.faults files.new other) }
    ensures others_stay { (other : List ℕ) → other ≢ name.now →
        IsSome (F.contents files.old other) →
        F.faults files.new other ≡ F.faults files.old other }
    ensures counts_stay { result ≢ Err ReadError.Failed →
        (other : List ℕ) → F.faults files.new other ≡ F.faults files.old other }
{
    let mut bytes = Vec::new(alloc);
    let mut piece = [0u8; PIECE];
    'pieces: loop {
        let Ok(n) = files.read(name, bytes.len() as u64, &mut piece) else {
            return Err(ReadError::Failed);
        };
        if n == 0 {
            return Ok(bytes);
        }
        if n as u64 > limit - bytes.len() as u64 {
            return Err(ReadError::TooLong(limit));
        }
        if bytes.extend_from_slice(&piece[..n]).is_err() {
            return Err(ReadError::Memory);
        }
    }
}
