//! The program of the points of an image.

ghost use Rattle.std.specs.Prelude.{◌≡◌, ◌≤◌, ◌<◌, length, map, position, slice_get, ◌==◌, IfOk, IfSome, IsSomeAnd};
ghost use Rattle.affine_prog.specs.Programs.{edge, IsWellFormed};
ghost use Rattle.flow_points.specs.Walks.{most_points, point};
ghost use Rattle.frame_offsets.specs.Frames.{AreOffsetsOf, offset_at};
ghost use Rattle.affine_lift.specs.declared.width.Width.TheVariants.{Narrow};
ghost use Rattle.affine_lift.specs.Effects.{effect_by};
ghost use Rattle.affine_lift.specs.Lifting.{node_of, number_of, exit_of, proc_of, owners_in, edges_by, edges_along_by, offset_from, IsLifted, IsLiftedBy, WritesSlots};

use crate::chosen::Chosen;
use crate::effect::{access_of, code_at, effect_of};
use crate::frame::store_of;
use crate::positions::positions_where;
use crate::width::Width;
use affine_prog::{Assign, Edge, Kind, Proc, Program};
use flow_points::{Flow, Points};
use frame_offsets::Offsets;
use report_text::{Name, NarrowTracked, Tracked};
use sqlite_items::Items;
use std::alloc::{AllocError, Global};

/// The program of the points with these names: node i is point i, and behind the points stand the exits of the
/// procedures, in the order of their addresses.
pub fn lift(
    alloc: Global,
    points: &Points,
    offsets: &Offsets,
    tracked: &Tracked,
) -> Result<Program, AllocError>
    requires { AreOffsetsOf points.now offsets.now }
    ensures lifted { IfOk result (λ program. IsLifted points.now tracked.now.names program) }
    ensures formed { IfOk result (λ program. IsWellFormed program) }
{
    lift_by(
        alloc,
        Width::Wide,
        points,
        offsets,
        tracked.names.as_slice(),
    )
}

/// The same with assignments to the low 32 bits of the names: the words of its states are meant modulo 2^32.
pub fn lift_narrow(
    alloc: Global,
    points: &Points,
    offsets: &Offsets,
    tracked: &NarrowTracked,
) -> Result<Program, AllocError>
    requires { AreOffsetsOf points.now offsets.now }
    ensures lifted { IfOk result (λ program. IsLiftedBy Narrow points.now tracked.now.names program) }
    ensures formed { IfOk result (λ program. IsWellFormed program) }
{
    lift_by(
        alloc,
        Width::Narrow,
        points,
        offsets,
        tracked.names.as_slice(),
    )
}

fn lift_by(
    alloc: Global,
    width: Width,
    points: &Points,
    offsets: &Offsets,
    names: &[Name],
) -> Result<Program, AllocError>
    requires few { length names.now ≤ 16 }
    requires offsets { AreOffsetsOf points.now offsets.now }
    ensures lifted { IfOk result (λ program. IsLiftedBy width points.now names.now program) }
    ensures formed { IfOk result (λ program. IsWellFormed program) }
{
    points.known();
    let procs = procs_of(alloc, points, names)?;
    let owners = owners_in(alloc, points)?;
    let edges = all_edges(alloc, width, points, offsets, names)?;
    Ok(Program {
        width: names.len() as u32,
        registers: positions_where(names, Chosen::Registers),
        nodes: points.count() + points.procedures().len() as u32,
        procs: Items::from_vec(procs),
        owners,
        edges,
        start: number_of(points, points.entry()),
    })
}

/// The slots that a point assigns, bit i for position i.
pub fn slot_writes(points: &Points, offsets: &Offsets, tracked: &Tracked, point: u32) -> u16
    requires point { point < length points.now.points }
    requires offsets { AreOffsetsOf points.now offsets.now }
    ensures { IsSomeAnd (slice_get points.now.points point) (λ c. WritesSlots points.now.points tracked.now.names c result) }
{
    let code = code_at(points, point);
    let access = access_of(points, offsets, point);
    let chosen = match store_of(&code.instr, access) {
        Some(store) => Chosen::SlotsTouched(code.point.proc_entry, store),
        None => return 0,
    };
    positions_where(tracked.names.as_slice(), chosen)
}

// The number of the point at an address in a procedure.
fn node_of(points: &Points, proc_entry: u64, address: u64) -> u32
    ensures { result ≡ node_of points.now (point proc_entry address) }
{
    points.known();
    points.find(proc_entry, address).unwrap_or(0)
}

// The number of the procedure with this entry.
fn number_of(points: &Points, entry: u64) -> u32
    ensures number { result ≡ number_of points.now entry }
    ensures few { result ≤ most_points }
{
    points.known();
    match place_in(points.procedures(), entry) {
        Some(number) => number as u32,
        None => 0,
    }
}

fn place_in(procedures: &[u64], entry: u64) -> Option<usize>
    ensures place { result ≡ position (λ p. p == entry) procedures.now }
    ensures within { IfSome result (λ i. i < length procedures.now) }
{
    procedures.iter().position(|p| *p == entry)
}

// The node of a procedure's exit.
fn exit_of(points: &Points, entry: u64) -> u32
    ensures { result ≡ exit_of points.now entry }
{
    points.count() + number_of(points, entry)
}

fn proc_of(points: &Points, names: &[Name], entry: u64) -> Proc
    requires { length names.now ≤ 16 }
    ensures { result ≡ proc_of points.now names.now entry }
{
    Proc {
        entry: node_of(points, entry, entry),
        exit: exit_of(points, entry),
        slots: positions_where(names, Chosen::SlotsOf(entry)),
    }
}

fn procs_of(alloc: Global, points: &Points, names: &[Name]) -> Result<Vec<Proc>, AllocError>
    requires { length names.now ≤ 16 }
    ensures { IfOk result (λ procs. procs.items ≡ map (proc_of points.now names.now) points.now.procedures) }
{
    points
        .procedures()
        .iter()
        .map(|entry| proc_of(points, names, *entry))
        .collect(alloc)
}

// The number of the procedure of each node.
fn owners_in(alloc: Global, points: &Points) -> Result<Items<u32>, AllocError>
    ensures { IfOk result (λ owners. owners ≡ owners_in points.now) }
{
    let mut owners = Items::new(alloc);
    for i in 0..points.count() {
        owners.push(number_of(points, points.point(i).proc_entry))?;
    }
    for entry in points.procedures() {
        owners.push(number_of(points, *entry))?;
    }
    Ok(owners)
}

// The edges from each point in turn.
fn all_edges(
    alloc: Global,
    width: Width,
    points: &Points,
    offsets: &Offsets,
    names: &[Name],
) -> Result<Items<Edge>, AllocError>
    requires few { length names.now ≤ 16 }
    requires offsets { AreOffsetsOf points.now offsets.now }
    ensures { IfOk result (λ edges. edges ≡ edges_along_by width points.now (offset_from points.now offsets.now) names.now points.now.points) }
{
    points.known();
    let mut edges = Items::new(alloc);
    for i in 0..points.count() {
        let more = edges_at(alloc, width, points, offsets, names, i)?;
        edges.append(more)?;
    }
    Ok(edges)
}

// The edges from a point.
fn edges_at(
    alloc: Global,
    width: Width,
    points: &Points,
    offsets: &Offsets,
    names: &[Name],
    i: u32,
) -> Result<Items<Edge>, AllocError>
    requires few { length names.now ≤ 16 }
    requires point { i < length points.now.points }
    requires offsets { AreOffsetsOf points.now offsets.now }
    ensures { IfOk result (λ edges. IsSomeAnd (slice_get points.now.points i) (λ c.
        edges ≡ edges_by points.now (effect_by width names.now c (offset_at offsets.now i)) i c.point.proc_entry c.flow)) }
{
    let assigns = effect_of(alloc, width, points, offsets, names, i)?;
    let code = code_at(points, i);
    edges_by(alloc, points, assigns, i, code.point.proc_entry, code.flow)
}

// The edges from a node of a procedure that makes these assignments and has this flow.
fn edges_by(
    alloc: Global,
    points: &Points,
    assigns: Items<Assign>,
    from: u32,
    proc_entry: u64,
    flow: Flow,
) -> Result<Items<Edge>, AllocError>
    ensures { IfOk result (λ edges. edges ≡ edges_by points.now assigns from proc_entry flow) }
{
    let mut edges = Items::new(alloc);
    match flow {
        Flow::Next(next) => {
            let to = node_of(points, proc_entry, next);
            edges.push(step(from, to, assigns))?;
        }
        Flow::Jump(target) => {
            let to = node_of(points, proc_entry, target);
            edges.push(step(from, to, assigns))?;
        }
        Flow::Branch { next, target } => {
            let same = Items::from_slice(alloc, assigns.as_slice())?;
            edges.push(step(from, node_of(points, proc_entry, next), same))?;
            edges.push(step(from, node_of(points, proc_entry, target), assigns))?;
        }
        Flow::Call { target, next } => {
            let callee = number_of(points, target);
            let kind = Kind::Call {
                callee,
                before: assigns,
            };
            let to = node_of(points, proc_entry, next);
            edges.push(Edge { from, to, kind })?;
        }
        Flow::Return => {
            let to = exit_of(points, proc_entry);
            edges.push(step(from, to, Items::new(alloc)))?;
        }
        Flow::Halt => {}
    }
    Ok(edges)
}

// An edge that makes assignments.
fn step(from: u32, to: u32, assigns: Items<Assign>) -> Edge
    ensures { result ≡ edge from to (Kind.Do assigns) }
{
    Edge {
        from,
        to,
        kind: Kind::Do(assigns),
    }
}
