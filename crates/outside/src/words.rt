//! The words of a call.
ghost use Rattle.std.specs.Prelude.{◌≡◌, drop, IfErr, IfOk, IsErrOf, IsOkAnd};

use std::io;

/// All words behind the first, which is the program's name. Where the words couldn't be had, the error is as it came.
pub fn behind_first(words: io::Result<Vec<String>>) -> io::Result<Vec<String>>
    ensures ok { IfOk words (λ w. IsOkAnd result (λ v. v.items ≡ drop 1 w.items)) }
    ensures err { IfErr words (λ e. IsErrOf result e) }
{
    match words {
        Ok(mut words) => {
            if !words.is_empty() {
                let _ = words.remove(0);
            }
            Ok(words)
        }
        Err(error) => Err(error),
    }
}
