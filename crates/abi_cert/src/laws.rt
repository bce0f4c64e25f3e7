//! What certificates say of paths. The function runs nothing; its contract is a law.

ghost use Rattle.abi_cert.specs.Certificates.{CertificatesTellOfPaths};

use affine_prog::paths_keep_states;
use map_modules::keeping_is_linear;

/// In a well-formed program the certificate of a basis with the module of a procedure's maps is the one of its level
/// paths.
pub fn certificates_tell_of_paths()
    ensures { CertificatesTellOfPaths }
{
    keeping_is_linear();
    paths_keep_states();
}
