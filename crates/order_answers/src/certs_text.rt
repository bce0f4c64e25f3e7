//! The certificates of an analysis, as text.

ghost use Rattle.std.specs.Prelude.{◌≡◌, ◌++◌, flat_map, All, IsTrue, IfOk, OnOk};
ghost use Rattle.report_text.specs.Names.{is_certified};
ghost use Rattle.order_answers.specs.CertsText.{own_line_text, procedure_text, certs_text};

use analyser_core::{CertLine, procedures_of, word_of};
use report_text::{Report, push_certified, push_names, push_opening};
use std::alloc::{AllocError, Global};

/// The text of the certificates.
pub fn write_certs(
    alloc: Global,
    report: &Report,
    certs: &[CertLine],
) -> Result<Vec<u8>, AllocError>
    requires { All (λ line. IsTrue (is_certified line.register)) certs.now }
    ensures { IfOk result (λ text. text.items ≡ certs_text report.now certs.now) }
{
    let mut text = Vec::from_slice(alloc, b"affine-cert 1\ntrack ")?;
    push_names(&mut text, report.tracked.names.as_slice())?;
    text.extend_from_slice(b"\n")?;
    let procedures = procedures_of(alloc, report.points.as_slice())?;
    push_procedures(&mut text, &procedures, certs)?;
    text.extend_from_slice(b"end\n")?;
    Ok(text)
}

fn push_procedures(
    text: &mut Vec<u8>,
    procedures: &[u64],
    certs: &[CertLine],
) -> Result<(), AllocError>
    requires { All (λ line. IsTrue (is_certified line.register)) certs.now }
    ensures { OnOk result (text.new.items ≡ text.old.items ++ flat_map (procedure_text certs.now) procedures.now) }
{
    for procedure in procedures {
        push_procedure(text, *procedure, certs)?;
    }
    Ok(())
}

fn push_procedure(text: &mut Vec<u8>, procedure: u64, certs: &[CertLine]) -> Result<(), AllocError>
    requires { All (λ line. IsTrue (is_certified line.register)) certs.now }
    ensures { OnOk result (text.new.items ≡ text.old.items ++ procedure_text certs.now procedure) }
{
    push_opening(text, None, procedure)?;
    for line in certs {
        push_own(text, procedure, *line)?;
    }
    Ok(())
}

// The line, where it is of this procedure.
fn push_own(text: &mut Vec<u8>, procedure: u64, line: CertLine) -> Result<(), AllocError>
    requires { IsTrue (is_certified line.register) }
    ensures { OnOk result (text.new.items ≡ text.old.items ++ own_line_text procedure line) }
{
    if line.proc_entry == procedure {
        push_certified(text, line.register, word_of(line.cert))?;
    }
    Ok(())
}
