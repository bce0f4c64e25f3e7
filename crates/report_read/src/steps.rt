//! What each kind of line makes of a report.

ghost use Rattle.std.specs.Prelude.{◌≡◌, ℕ, ◌+◌, ◌<◌, List, [], ◌∷◌, ◌++◌, length, true, IsTrue, ◌↔◌, IfSome, slice_get};
ghost use Rattle.report_text.specs.Certificates.{certified_names};
ghost use Rattle.report_text.specs.Names.{is_certified};
ghost use Rattle.report_lines.specs.Lines.{Proc, Cert, At, NoRows, Unreached, Rel, End};
ghost use Rattle.report_lines.specs.Relations.{Tells};
ghost use Rattle.report_lines.specs.Terms.{Term};
ghost use Rattle.report_read.specs.Drafts.{IsRegisterOf, are_wanted, entry_at, is_allowed, place_with_row, told, with_row_at};
ghost use Rattle.report_read.specs.Steps.{IsDraft, IsLineStep, IsNextCert, IsPlace};

use crate::draft::{Draft, Place};
use refusals::ReportRefusal;
use report_lines::Relation;
use report_text::{CertWord, Name, PointRows, PointState, ReportCert, is_certified};
use rv_decode::register_name;
use sqlite_items::Items;
use std::alloc::Global;
use word_rows::Row;

/// A procedure's line.
pub fn proc_step(draft: Draft, number: u64, entry: u64) -> Result<Draft, ReportRefusal>
    ensures { IsLineStep number draft (Proc entry) result }
{
    match &draft.place {
        Place::Top => Ok(at_place(draft, Place::Procedure { entry, count: 0 })),
        Place::Told { entry: before, .. } => {
            if *before < entry {
                Ok(at_place(draft, Place::Procedure { entry, count: 0 }))
            } else {
                Err(ReportRefusal::Order(number))
            }
        }
        _ => Err(ReportRefusal::Syntax(number)),
    }
}

/// A certificate's line.
pub fn cert_step(
    draft: Draft,
    number: u64,
    name: &[u8],
    word: CertWord,
) -> Result<Draft, ReportRefusal>
    ensures { IsLineStep number draft (Cert name.now word) result }
{
    match &draft.place {
        Place::Procedure { entry, count } => {
            let (entry, count) = (*entry, *count);
            if draft.version != 2 {
                return Err(ReportRefusal::Syntax(number));
            }
            if !is_register_of(draft.tracked.names.as_slice(), name) {
                return Err(ReportRefusal::UnknownName(number));
            }
            match nth_certified(draft.tracked.names.as_slice(), count) {
                None => Err(ReportRefusal::Order(number)),
                Some(register) => {
                    if name == register_name(register).as_bytes() {
                        let cert = ReportCert {
                            proc_entry: entry,
                            register,
                            word,
                        };
                        with_cert(draft, entry, count, cert)
                    } else {
                        Err(ReportRefusal::Order(number))
                    }
                }
            }
        }
        _ => Err(ReportRefusal::Syntax(number)),
    }
}

/// A point's line.
pub fn at_step(draft: Draft, number: u64, address: u64) -> Result<Draft, ReportRefusal>
    ensures { IsLineStep number draft (At address) result }
{
    match &draft.place {
        Place::Procedure { entry, count } => {
            let entry = *entry;
            if is_cert_wanted(&draft, *count) {
                return Err(ReportRefusal::Order(number));
            }
            Ok(at_place(
                draft,
                Place::Point {
                    entry,
                    address,
                    line: number,
                },
            ))
        }
        Place::Told {
            entry,
            address: before,
        } => {
            let entry = *entry;
            if *before < address {
                Ok(at_place(
                    draft,
                    Place::Point {
                        entry,
                        address,
                        line: number,
                    },
                ))
            } else {
                Err(ReportRefusal::Order(number))
            }
        }
        _ => Err(ReportRefusal::Syntax(number)),
    }
}

/// The line that tells that no relation holds.
pub fn no_rows_step(alloc: Global, draft: Draft, number: u64) -> Result<Draft, ReportRefusal>
    ensures { IsLineStep number draft NoRows result }
{
    match &draft.place {
        Place::Point { entry, address, .. } => {
            let (entry, address) = (*entry, *address);
            tell(draft, entry, address, PointState::Rows(Items::new(alloc)))
        }
        _ => Err(ReportRefusal::Syntax(number)),
    }
}

/// The line that tells that no state comes.
pub fn unreached_step(draft: Draft, number: u64) -> Result<Draft, ReportRefusal>
    ensures { IsLineStep number draft Unreached result }
{
    match &draft.place {
        Place::Point { entry, address, .. } => {
            let (entry, address) = (*entry, *address);
            tell(draft, entry, address, PointState::Unreached)
        }
        _ => Err(ReportRefusal::Syntax(number)),
    }
}

/// The last line.
pub fn end_step(draft: Draft, number: u64) -> Result<Draft, ReportRefusal>
    ensures { IsLineStep number draft End result }
{
    match &draft.place {
        Place::Top => Ok(at_place(draft, Place::End)),
        Place::Told { .. } => Ok(at_place(draft, Place::End)),
        _ => Err(ReportRefusal::Syntax(number)),
    }
}

/// A relation's line that is allowed, by what it tells.
pub fn relation_step(
    alloc: Global,
    draft: Draft,
    number: u64,
    relation: Relation,
) -> Result<Draft, ReportRefusal>
    ensures { (terms : List Term) (c : ℕ) → is_allowed draft (Rel terms c) ≡ true → Tells draft.tracked.names (entry_at draft.place) terms c relation → IsLineStep number draft (Rel terms c) result }
{
    match relation {
        Relation::UnknownName => Err(ReportRefusal::UnknownName(number)),
        Relation::Order => Err(ReportRefusal::Order(number)),
        Relation::Row(row) => with_row(alloc, draft, row),
    }
}

/// The report with what is told of a point.
pub fn tell(
    draft: Draft,
    entry: u64,
    address: u64,
    state: PointState,
) -> Result<Draft, ReportRefusal>
    ensures { IsDraft (told draft entry address state) result }
{
    let Draft {
        version,
        tracked,
        certs,
        mut points,
        ..
    } = draft;
    let point = PointRows {
        proc_entry: entry,
        address,
        state,
    };
    match points.push(point) {
        Err(_) => Err(ReportRefusal::Memory),
        Ok(()) => Ok(Draft {
            version,
            tracked,
            certs,
            points,
            place: Place::Told { entry, address },
        }),
    }
}

// The report with another row of the point.
fn with_row(alloc: Global, draft: Draft, row: Row<17>) -> Result<Draft, ReportRefusal>
    ensures { IsDraft (with_row_at draft draft.place row) result }
{
    let Draft {
        version,
        tracked,
        certs,
        points,
        place,
    } = draft;
    match more_rows(alloc, place, row) {
        Err(refusal) => Err(refusal),
        Ok(place) => Ok(Draft {
            version,
            tracked,
            certs,
            points,
            place,
        }),
    }
}

fn more_rows(alloc: Global, place: Place, row: Row<17>) -> Result<Place, ReportRefusal>
    ensures { IsPlace (place_with_row place row) result }
{
    match place {
        Place::Point {
            entry,
            address,
            line,
        } => {
            let mut rows = Items::new(alloc);
            match rows.push(row) {
                Err(_) => Err(ReportRefusal::Memory),
                Ok(()) => Ok(Place::Rows {
                    entry,
                    address,
                    line,
                    rows,
                }),
            }
        }
        Place::Rows {
            entry,
            address,
            line,
            mut rows,
        } => match rows.push(row) {
            Err(_) => Err(ReportRefusal::Memory),
            Ok(()) => Ok(Place::Rows {
                entry,
                address,
                line,
                rows,
            }),
        },
        place => Ok(place),
    }
}

// The report with another certificate of the procedure.
fn with_cert(
    draft: Draft,
    entry: u64,
    count: usize,
    cert: ReportCert,
) -> Result<Draft, ReportRefusal>
    requires { count < 16 }
    ensures { (number : ℕ) (name : List ℕ) → IsNextCert draft name entry count cert → IsLineStep number draft (Cert name cert.word) result }
{
    let Draft {
        version,
        tracked,
        mut certs,
        points,
        ..
    } = draft;
    match certs.push(cert) {
        Err(_) => Err(ReportRefusal::Memory),
        Ok(()) => Ok(Draft {
            version,
            tracked,
            certs,
            points,
            place: Place::Procedure {
                entry,
                count: count + 1,
            },
        }),
    }
}

// Whether a certificate is to come behind the first `count` ones of a procedure.
fn is_cert_wanted(draft: &Draft, count: usize) -> bool
    ensures { IsTrue result ↔ (count < length (are_wanted draft.now)) }
{
    if draft.version != 2 {
        return false;
    }
    nth_certified(draft.tracked.names.as_slice(), count).is_some()
}

// The certified one of the tracked registers that stands behind `count` others.
fn nth_certified(names: &[Name], count: usize) -> Option<u8>
    ensures place { result ≡ slice_get (certified_names names.now) count }
    ensures certified { IfSome result (λ r. IsTrue (is_certified r)) }
    ensures within { IfSome result (λ r. count < length names.now) }
{
    let mut left = count;
    for name in names {
        if let Name::Register(r) = name {
            if is_certified(*r) {
                if left == 0 {
                    return Some(*r);
                }
                left -= 1;
            }
        }
    }
    None
}

// Whether the text is the name of a certified one of the tracked registers.
fn is_register_of(names: &[Name], text: &[u8]) -> bool
    ensures { IsTrue result ↔ IsRegisterOf names.now text.now }
{
    for name in names {
        if is_register(*name, text) {
            return true;
        }
    }
    false
}

fn is_register(name: Name, text: &[u8]) -> bool
    ensures { IsTrue result ↔ IsRegisterOf (name ∷ []) text.now }
{
    match name {
        Name::Slot { .. } => false,
        Name::Register(r) => is_certified(r) && text == register_name(r).as_bytes(),
    }
}

fn at_place(draft: Draft, place: Place) -> Draft
    ensures { result ≡ record draft { place = place } }
{
    let Draft {
        version,
        tracked,
        certs,
        points,
        ..
    } = draft;
    Draft {
        version,
        tracked,
        certs,
        points,
        place,
    }
}
