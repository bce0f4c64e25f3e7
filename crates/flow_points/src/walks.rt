//! The points that walks along the flow reach.

ghost use Rattle.std.specs.Prelude.{◌≡◌, ◌<◌, length, slice_get, All, IfOk, IfErr, OnOk};
ghost use Rattle.flow_points.specs.Flows.{HasFlow, fetches_of};
ghost use Rattle.flow_points.specs.Walks.{FlowWalk, point, successors_of};
ghost use Rattle.flow_points.specs.Sites.{AreSites, AreAllSites, Adds, HasSuccessors, HasSite, IsStop};

use crate::code_points::{Flow, Point, Site};
use crate::sites::site_at;
use elf_image::Image;
use indexmap::IndexMap;
use refusals::FlowRefusal;
use std::alloc::Global;

/// Points with what there is at each, in the order in which they were found.
pub type Sites = IndexMap<Point, Site>;

const MOST_POINTS: usize = 16384;

/// All points that are reached, with what there is at each. It stops where it is out of memory, or where
/// there are more points than the limit.
pub fn reached(alloc: Global, image: &Image) -> Result<Sites, FlowRefusal>
    ensures all { IfOk result (λ sites. AreAllSites (fetches_of image.now) image.now.entry sites.entries) }
    ensures stop { IfErr result (IsStop (fetches_of image.now) image.now.entry) }
{
    let mut sites = IndexMap::new(alloc);
    add(&mut sites, image, image.entry, image.entry)?;
    let mut at = 0;
    while at < sites.len() {
        follow(&mut sites, image, at)?;
        at += 1;
    }
    Ok(sites)
}

/// The point that was found as the one of this number, with what there is at it.
pub fn entry_at(sites: &Sites, at: usize) -> (Point, Site)
    requires { at < length sites.now.entries }
    ensures { slice_get sites.now.entries at ≡ Some result }
{
    match sites.get_index(at) {
        Some((point, site)) => (*point, *site),
        None => unreachable!(),
    }
}

// Adds where the flow goes on from the point that was found as the one of this number.
fn follow(sites: &mut Sites, image: &Image, at: usize) -> Result<(), FlowRefusal>
    requires number { at < length sites.old.entries }
    requires sites { AreSites (fetches_of image.now) image.now.entry sites.old.entries }
    ensures adds { Adds (fetches_of image.now) image.now.entry sites.old.entries sites.new.entries }
    ensures there { OnOk result (HasSuccessors sites.new.entries (slice_get sites.old.entries at)) }
    ensures stop { IfErr result (IsStop (fetches_of image.now) image.now.entry) }
{
    let (point, site) = entry_at(sites, at);
    match site.code {
        Ok(code) => add_successors(sites, image, point, code.flow),
        Err(_) => Ok(()),
    }
}

fn add_successors(
    sites: &mut Sites,
    image: &Image,
    from: Point,
    flow: Flow,
) -> Result<(), FlowRefusal>
    requires sites { AreSites (fetches_of image.now) image.now.entry sites.old.entries }
    requires reached { FlowWalk (fetches_of image.now) image.now.entry from }
    requires flow { HasFlow (fetches_of image.now) from.address flow }
    ensures adds { Adds (fetches_of image.now) image.now.entry sites.old.entries sites.new.entries }
    ensures there { OnOk result (All (HasSite sites.new.entries) (successors_of from.proc_entry flow)) }
    ensures stop { IfErr result (IsStop (fetches_of image.now) image.now.entry) }
{
    let proc_entry = from.proc_entry;
    match flow {
        Flow::Next(next) => add(sites, image, proc_entry, next),
        Flow::Jump(target) => add(sites, image, proc_entry, target),
        Flow::Branch { next, target } => {
            add(sites, image, proc_entry, next)?;
            add(sites, image, proc_entry, target)
        }
        Flow::Call { target, next } => {
            add(sites, image, target, target)?;
            add(sites, image, proc_entry, next)
        }
        Flow::Return | Flow::Halt => Ok(()),
    }
}

// Adds the point at an address in a procedure, if it isn't there.
fn add(sites: &mut Sites, image: &Image, proc_entry: u64, address: u64) -> Result<(), FlowRefusal>
    requires sites { AreSites (fetches_of image.now) image.now.entry sites.old.entries }
    requires reached { FlowWalk (fetches_of image.now) image.now.entry (point proc_entry address) }
    ensures adds { Adds (fetches_of image.now) image.now.entry sites.old.entries sites.new.entries }
    ensures there { OnOk result (HasSite sites.new.entries (point proc_entry address)) }
    ensures stop { IfErr result (IsStop (fetches_of image.now) image.now.entry) }
{
    let point = Point {
        proc_entry,
        address,
    };
    if sites.contains_key(&point) {
        return Ok(());
    }
    if sites.len() == MOST_POINTS {
        return Err(FlowRefusal::TooManyPoints(MOST_POINTS as u32));
    }
    match sites.insert(point, site_at(image, point)) {
        Ok(_) => Ok(()),
        Err(_) => Err(FlowRefusal::Memory),
    }
}
