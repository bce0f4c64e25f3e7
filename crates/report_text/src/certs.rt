//! Certificates, as a report tells them.

ghost use Rattle.std.specs.Prelude.{◌≡◌, IsTrue};
ghost use Rattle.report_text.specs.Names.{is_certified};

/// What is certified of a register of a procedure.
#[derive(Clone, Copy, Debug, PartialEq, Eq)]
pub enum CertWord {
    /// Each return leaves the register as it was at the entry.
    Granted,
    /// Some return doesn't.
    Broken,
    /// The procedure never returns.
    Never,
}

/// What is certified of one of sp, ra and s0 to s11 in the procedure at the address `proc_entry`.
#[derive(Debug, Drop)]
pub struct ReportCert {
    pub proc_entry: u64,
    pub register: u8,
    pub word: CertWord,
    ghost certified: { IsTrue (is_certified register) },
}

/// Whether a register is one of those that are certified: sp, ra and s0 to s11.
pub fn is_certified(register: u8) -> bool
    ensures { result ≡ is_certified register }
{
    matches!(register, 1 | 2 | 8 | 9) || (18 <= register && register <= 27)
}
