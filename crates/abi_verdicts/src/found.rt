//! Faults that walks show.

ghost use Rattle.std.specs.Prelude.{◌≡◌, IfOk};
ghost use Rattle.entry_runs.specs.Walks.{flow_at};
ghost use Rattle.entry_tables.specs.Settling.{AreLined, table_of};
ghost use Rattle.entry_values.specs.Flows.{is_entry};
ghost use Rattle.abi_verdicts.specs.Faults.{tells, is_lost, strays, is_away, shows, fault_at, fault_of};

use crate::faults::Fault;
use elf_image::Image;
use entry_tables::Rows;
use entry_values::{Flow, Kind, Memory, Value};
use entry_walks::{Stop, flow_here, value_in, walked};
use std::alloc::Global;

/// The fault that a walk shows of a register; none, if it is no walk, or shows none.
pub(crate) fn fault_of(
    alloc: Global,
    image: &Image,
    rows: &Rows,
    p: u64,
    r: u8,
    walk: &[u64],
) -> Result<Option<Fault>, Memory>
    requires { AreLined image.now rows.now.points }
    ensures { IfOk result (λ fault. fault ≡ fault_of (table_of image.now rows.now) p r walk.now) }
{
    match walked(alloc, image, rows, p, r, walk)? {
        Some(stop) => Ok(fault_at(alloc, image, rows, p, r, &stop)?),
        None => Ok(None),
    }
}

fn fault_at(
    alloc: Global,
    image: &Image,
    rows: &Rows,
    p: u64,
    r: u8,
    stop: &Stop,
) -> Result<Option<Fault>, Memory>
    requires { AreLined image.now rows.now.points }
    ensures { IfOk result (λ fault. fault ≡ fault_at (table_of image.now rows.now) p r stop.now) }
{
    let flow = flow_here(alloc, image, rows, p, stop.address, &stop.state)?;
    let value = value_in(&stop.state.values, r);
    if !shows(r, value, &flow) {
        return Ok(None);
    }
    Ok(Some(Fault {
        changed: stop.changed,
        address: stop.address,
        value,
    }))
}

/// With this value in the register a fault is shown by an end with this flow.
pub fn shows(r: u8, v: Value, flow: &Flow) -> bool
    ensures { result ≡ shows r v flow.now }
{
    match flow {
        Flow::Return | Flow::TailOut => r != 1 && is_lost(r, v),
        Flow::Leave => r == 1 && is_away(v),
        _ => false,
    }
}

/// The value of the register, where the procedure returns, is a fault.
pub fn is_lost(r: u8, v: Value) -> bool
    ensures { result ≡ is_lost r v }
{
    match v {
        Value::Is(b, k) => !(b == r && k == 0),
        Value::Any(_, kind) => tells(r, kind),
    }
}

fn tells(r: u8, kind: Kind) -> bool
    ensures { result ≡ tells r kind }
{
    match kind {
        Kind::Computed => r != 2,
        Kind::Callee | Kind::Joined => false,
        _ => true,
    }
}

/// A jump to the value by ra goes astray.
pub fn is_away(v: Value) -> bool
    ensures { result ≡ is_away v }
{
    match v {
        Value::Is(b, k) => !(b == 1 && k < 2),
        Value::Any(_, kind) => strays(kind),
    }
}

fn strays(kind: Kind) -> bool
    ensures { result ≡ strays kind }
{
    matches!(
        kind,
        Kind::Unset | Kind::Overwritten | Kind::Narrow | Kind::Computed
    )
}

/// The value is the register's word of the entry.
pub fn is_own(r: u8, v: Value) -> bool
    ensures { result ≡ is_entry r v }
{
    match v {
        Value::Is(b, k) => b == r && k == 0,
        Value::Any(_, _) => false,
    }
}
