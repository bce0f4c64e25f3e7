//! What a certificate says.

/// What is certified of a position at the return of a procedure.
#[derive(Clone, Copy, Debug, PartialEq, Eq)]
pub enum Cert {
    /// Each return leaves the position as it was when the procedure was entered.
    Granted,
    /// Some return doesn't.
    Broken,
    /// The procedure never returns.
    NeverReturns,
}
