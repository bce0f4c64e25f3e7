//! What is certified of a register in a procedure.

use abi_cert::Cert;

/// The certificate of a register in the procedure at the address `proc_entry`.
#[derive(Clone, Copy, Debug, PartialEq, Eq)]
pub struct CertLine {
    pub proc_entry: u64,
    pub register: u8,
    pub cert: Cert,
}
