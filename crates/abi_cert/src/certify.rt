//! Reading a certificate off a summary.

ghost use Rattle.std.specs.Prelude.{◌<◌};
ghost use Rattle.abi_cert.specs.Certificates.{IsCertificate};

use crate::cert::Cert;
use map_modules::{MatBasis, keeps};

/// What a procedure's summary, the basis of its maps from its entry to its exit, says of a position. It takes
/// no memory.
pub fn certificate(summary: &MatBasis, position: usize) -> Cert
    requires { position < 16 }
    ensures { IsCertificate summary.now position result }
{
    let maps = summary.rows();
    if maps.is_empty() {
        return Cert::NeverReturns;
    }
    for map in maps {
        if !keeps(map, position) {
            return Cert::Broken;
        }
    }
    Cert::Granted
}
