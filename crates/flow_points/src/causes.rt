//! The first cause that makes a point bad.

ghost use Rattle.std.specs.Prelude.{◌≡◌};
ghost use Rattle.flow_points.specs.Refusals.{number_of, address_of};
ghost use Rattle.flow_points.specs.Causes.{cause_into, cause_of, first_cause_of, flow_cause, is_sooner, pair_cause, sooner};

use crate::code_points::{Flow, Point, Site};
use crate::flows::prior;
use crate::walks::{Sites, entry_at};
use refusals::FlowRefusal;

/// The first cause, by address and then by its number, that makes one of the points bad.
pub fn first_cause(sites: &Sites, start: Point) -> Option<FlowRefusal>
    ensures { result ≡ first_cause_of sites.now.entries start }
{
    let mut first = pair_cause(sites, start);
    for at in 0..sites.len() {
        let (_, site) = entry_at(sites, at);
        first = sooner(first, cause_of(sites, site));
    }
    first
}

// What is bad at a point, or a pair that its flow enters.
fn cause_of(sites: &Sites, site: Site) -> Option<FlowRefusal>
    ensures { result ≡ cause_of sites.now.entries site }
{
    match site.code {
        Ok(code) => flow_cause(sites, code.point, code.flow),
        Err(cause) => Some(cause),
    }
}

// The sooner cause of those that a flow from this point enters.
fn flow_cause(sites: &Sites, from: Point, flow: Flow) -> Option<FlowRefusal>
    ensures { result ≡ flow_cause sites.now.entries from flow }
{
    match flow {
        Flow::Next(next) => cause_into(sites, from, next),
        Flow::Jump(target) => cause_into(sites, from, target),
        Flow::Branch { next, target } => sooner(
            cause_into(sites, from, next),
            cause_into(sites, from, target),
        ),
        Flow::Call { target, next } => {
            let called = Point {
                proc_entry: target,
                address: target,
            };
            sooner(pair_cause(sites, called), cause_into(sites, from, next))
        }
        Flow::Return | Flow::Halt => None,
    }
}

// The cause of the point at an address where the flow goes from a point of the same procedure, unless that
// is where its first half stands.
fn cause_into(sites: &Sites, from: Point, address: u64) -> Option<FlowRefusal>
    ensures { result ≡ cause_into sites.now.entries from address }
{
    if from.address == prior(address) {
        return None;
    }
    pair_cause(
        sites,
        Point {
            proc_entry: from.proc_entry,
            address,
        },
    )
}

// The cause that a point has where it is entered, if it is the second half of a pair.
fn pair_cause(sites: &Sites, point: Point) -> Option<FlowRefusal>
    ensures { result ≡ pair_cause sites.now.entries point }
{
    let site = sites.get(&point)?;
    if site.ends_pair {
        Some(FlowRefusal::IntoPair(point.address))
    } else {
        None
    }
}

fn sooner(a: Option<FlowRefusal>, b: Option<FlowRefusal>) -> Option<FlowRefusal>
    ensures { result ≡ sooner a b }
{
    match (a, b) {
        (None, other) | (other, None) => other,
        (Some(cause), Some(other)) => {
            if is_sooner(cause, other) {
                Some(cause)
            } else {
                Some(other)
            }
        }
    }
}

fn is_sooner(a: FlowRefusal, b: FlowRefusal) -> bool
    ensures { result ≡ is_sooner a b }
{
    let (place, other) = (address_of(a), address_of(b));
    place < other || place == other && number_of(a) <= number_of(b)
}

fn address_of(cause: FlowRefusal) -> u64
    ensures { result ≡ address_of cause }
{
    match cause {
        FlowRefusal::OutsideCode(address)
        | FlowRefusal::NoInstruction(address, _)
        | FlowRefusal::OddLink(address, _)
        | FlowRefusal::IndirectJump(address, _)
        | FlowRefusal::MisalignedTarget(address, _)
        | FlowRefusal::IntoPair(address) => address,
        FlowRefusal::TooManyPoints(_) | FlowRefusal::Memory => 0,
    }
}

fn number_of(cause: FlowRefusal) -> u8
    ensures { result ≡ number_of cause }
{
    match cause {
        FlowRefusal::TooManyPoints(_) => 1,
        FlowRefusal::OutsideCode(_) => 2,
        FlowRefusal::NoInstruction(..) => 3,
        FlowRefusal::OddLink(..) => 4,
        FlowRefusal::IndirectJump(..) => 5,
        FlowRefusal::MisalignedTarget(..) => 6,
        FlowRefusal::IntoPair(_) => 7,
        FlowRefusal::Memory => 8,
    }
}
