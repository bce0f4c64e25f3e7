//! The certificates of a program's procedures, and their words in a report.

ghost use Rattle.std.specs.Prelude.{◌≡◌, ◌≤◌, ◌++◌, ◌∷◌, [], length, map, slice_get, All, Contains, IsTrue, Some, IfOk, IfNone, IfSome, OnOk};
ghost use Rattle.affine_prog.specs.Programs.{IsWellFormed};
ghost use Rattle.affine_prog.specs.Spans.{AreExits};
ghost use Rattle.affine_lift.specs.Lifting.{IsLifted};
ghost use Rattle.report_text.specs.Names.{is_certified};
ghost use Rattle.report_text.specs.Certificates.{certified_names};
ghost use Rattle.report_text.specs.declared.names.Name.TheVariants.{Register};
ghost use Rattle.analyser_core.specs.Certified.{AreCertificatesAt, word_of, told_in, told_of};
ghost use Rattle.analyser_core.specs.ReadOff.{AreReadOff, IsSummaryOf};

use crate::cert_line::CertLine;
use abi_cert::laws::certificates_tell_of_paths;
use abi_cert::{Cert, certificate};
use affine_prog::Program;
use flow_points::Points;
use lead_basis::Memory;
use map_modules::MatBasis;
use report_text::{CertWord, Name, ReportCert, Tracked, is_certified};
use sqlite_items::Items;
use std::alloc::Global;

/// The certificates of some of the program's procedures, from the bases at their exits.
pub(crate) fn certify(
    alloc: Global,
    points: &Points,
    tracked: &Tracked,
    program: &Program,
    exits: &[MatBasis],
    procedures: &[u64],
) -> Result<Items<CertLine>, Memory>
    requires formed { IsWellFormed program.now }
    requires lifted { IsLifted points.now tracked.now.names program.now }
    requires exits { AreExits program.now exits.now }
    requires within { All (Contains points.now.procedures) procedures.now }
    ensures { IfOk result (AreCertificatesAt program.now points.now tracked.now.names procedures.now) }
{
    certificates_tell_of_paths();
    let mut certs = Items::new(alloc);
    for entry in procedures {
        let summary = summary_of(points.procedures(), exits, *entry);
        summary.known();
        let lines = lines_of(alloc, *entry, tracked.names.as_slice(), summary)?;
        append(&mut certs, lines)?;
    }
    Ok(certs)
}

// What stands for a procedure among the bases at the exits of all.
fn summary_of<'a>(procedures: &[u64], exits: &'a [MatBasis], entry: u64) -> &'a MatBasis
    requires there { Contains procedures.now entry }
    requires count { length exits.now ≡ length procedures.now }
    ensures { IsSummaryOf procedures.now exits.now entry result.now }
{
    &exits[place_of(procedures, entry)]
}

// The place of a procedure among all.
fn place_of(procedures: &[u64], entry: u64) -> usize
    requires { Contains procedures.now entry }
    ensures { slice_get procedures.now result ≡ Some entry }
{
    procedures.iter().position(|p| *p == entry).unwrap_or(0)
}

// What a procedure's summary says of each certified register among the names.
fn lines_of(
    alloc: Global,
    proc_entry: u64,
    names: &[Name],
    summary: &MatBasis,
) -> Result<Items<CertLine>, Memory>
    requires { length names.now ≤ 16 }
    ensures { IfOk result (AreReadOff summary.now proc_entry names.now) }
{
    let mut lines = Items::new(alloc);
    for i in 0..names.len() {
        if let Some(register) = certified_register(names[i]) {
            let line = CertLine {
                proc_entry,
                register,
                cert: certificate(summary, i),
            };
            push(&mut lines, line)?;
        }
    }
    Ok(lines)
}

// The register that a name is, where it is one of those that are certified.
fn certified_register(name: Name) -> Option<u8>
    ensures some { IfSome result (λ r. (name ≡ Register r) × IsTrue (is_certified r)) }
    ensures none { IfNone result (certified_names (name ∷ []) ≡ []) }
{
    match name {
        Name::Register(register) if is_certified(register) => Some(register),
        _ => None,
    }
}

fn push(lines: &mut Items<CertLine>, line: CertLine) -> Result<(), Memory>
    ensures { OnOk result (lines.new ≡ lines.old ++ line ∷ []) }
{
    match lines.push(line) {
        Ok(()) => Ok(()),
        Err(_) => Err(Memory),
    }
}

fn append(certs: &mut Items<CertLine>, lines: Items<CertLine>) -> Result<(), Memory>
    ensures { OnOk result (certs.new ≡ certs.old ++ lines) }
{
    match certs.append(lines) {
        Ok(()) => Ok(()),
        Err(_) => Err(Memory),
    }
}

/// The certificates as a report tells them.
pub(crate) fn words_of(alloc: Global, certs: &[CertLine]) -> Result<Items<ReportCert>, Memory>
    requires { All (λ line. IsTrue (is_certified line.register)) certs.now }
    ensures { IfOk result (λ words. map told_of words ≡ map told_in certs.now) }
{
    let mut words = Items::new(alloc);
    for line in certs {
        let word = ReportCert {
            proc_entry: line.proc_entry,
            register: line.register,
            word: word_of(line.cert),
        };
        match words.push(word) {
            Ok(()) => {}
            Err(_) => return Err(Memory),
        }
    }
    Ok(words)
}

/// The word that a report has for a certificate.
pub fn word_of(cert: Cert) -> CertWord
    ensures { result ≡ word_of cert }
{
    match cert {
        Cert::Granted => CertWord::Granted,
        Cert::Broken => CertWord::Broken,
        Cert::NeverReturns => CertWord::Never,
    }
}
