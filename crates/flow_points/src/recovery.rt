//! Recovering the points of an image.

ghost use Rattle.std.specs.Prelude.{◌≡◌, ◌≢◌, None, nat_eq, IfErr, IfOk, OnOk};
ghost use Rattle.std.specs.List.{IsDistinct, dedup};
ghost use Rattle.std.specs.List.Sorted.{IsPermutation, IsSorted};
ghost use Rattle.std.specs.Map.{keys_of};
ghost use Rattle.flow_points.specs.Flows.{fetches_of};
ghost use Rattle.flow_points.specs.Walks.{start};
ghost use Rattle.flow_points.specs.Refusals.{IsFlowRefusal};
ghost use Rattle.flow_points.specs.Sites.{AreAllSites};
ghost use Rattle.flow_points.specs.Causes.{codes_of, first_cause_of, same_point};
ghost use Rattle.flow_points.specs.PointLists.{ArePointsOf, entries_of, point_cmp};

use crate::causes::first_cause;
use crate::code_points::{CodePoint, Point};
use crate::points::Points;
use crate::walks::{Sites, entry_at, reached};
use elf_image::Image;
use refusals::FlowRefusal;
use sqlite_items::Items;
use std::alloc::{AllocError, Global};

/// The points of an image, or why its code is refused. `Memory` comes only where it is out of memory.
pub fn recover(alloc: Global, image: &Image) -> Result<Points, FlowRefusal>
    ensures points { IfOk result (ArePointsOf image.now) }
    ensures accepted { OnOk result ((refusal : FlowRefusal) → IsFlowRefusal image.now refusal → ⊥) }
    ensures refused { IfErr result (λ e. e ≢ FlowRefusal.Memory → IsFlowRefusal image.now e) }
{
    let sites = reached(alloc, image)?;
    let start = Point {
        proc_entry: image.entry,
        address: image.entry,
    };
    match first_cause(&sites, start) {
        Some(cause) => Err(cause),
        None => listed(alloc, image, sites),
    }
}

// The points that were found, where none is bad.
fn listed(alloc: Global, image: &Image, mut sites: Sites) -> Result<Points, FlowRefusal>
    requires all { AreAllSites (fetches_of image.now) image.now.entry sites.entries }
    requires good { first_cause_of sites.entries (start image.now.entry) ≡ None }
    ensures points { IfOk result (ArePointsOf image.now) }
    ensures memory { IfErr result (λ e. e ≡ FlowRefusal.Memory) }
{
    sort(&mut sites)?;
    let points = code_points(alloc, &sites).map_err(|_| FlowRefusal::Memory)?;
    let procedures = procedures(alloc, &points).map_err(|_| FlowRefusal::Memory)?;
    let (points, procedures) = (Items::from_vec(points), Items::from_vec(procedures));
    Ok(Points::new(image.entry, points, procedures))
}

// Puts points in ascending order.
fn sort(sites: &mut Sites) -> Result<(), FlowRefusal>
    ensures sorted { OnOk result (IsSorted point_cmp (keys_of sites.new.entries)) }
    ensures moved { OnOk result (IsPermutation sites.old.entries sites.new.entries) }
    ensures distinct { OnOk result (IsDistinct same_point (keys_of sites.new.entries)) }
    ensures memory { IfErr result (λ e. e ≡ FlowRefusal.Memory) }
{
    sites.sort_keys().map_err(|_| FlowRefusal::Memory)
}

// The code of the points that have one, in their order.
fn code_points(alloc: Global, sites: &Sites) -> Result<Vec<CodePoint>, AllocError>
    ensures { IfOk result (λ v. v.items ≡ codes_of sites.now.entries) }
{
    let mut points = Vec::new(alloc);
    for at in 0..sites.len() {
        let (_, site) = entry_at(sites, at);
        match site.code {
            Ok(code) => points.push(code)?,
            Err(_) => {}
        }
    }
    Ok(points)
}

// The entries of the procedures of the points, each once where they ascend.
fn procedures(alloc: Global, points: &[CodePoint]) -> Result<Vec<u64>, AllocError>
    ensures { IfOk result (λ v. v.items ≡ dedup nat_eq (entries_of points.now)) }
{
    let mut procedures = entries(alloc, points)?;
    procedures.dedup();
    Ok(procedures)
}

fn entries(alloc: Global, points: &[CodePoint]) -> Result<Vec<u64>, AllocError>
    ensures { IfOk result (λ v. v.items ≡ entries_of points.now) }
{
    points
        .iter()
        .map(|code| code.point.proc_entry)
        .collect(alloc)
}
