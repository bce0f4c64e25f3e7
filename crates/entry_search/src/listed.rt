//! The rows of a search, in their order.

ghost use Rattle.std.specs.Prelude.{◌≡◌, IfOk, OnOk};
ghost use Rattle.entry_tables.specs.Settling.{AreLined};

use crate::drafts::{Draft, Drafts, Known, push};
use crate::limits::{NoTable, kept};
use elf_image::Image;
use entry_tables::{Guess, Point, Rows, Told, lined_point};
use entry_values::copied;
use sqlite_items::Items;
use std::alloc::Global;

// Where a point or a procedure stands in a table, and its number in the search.
#[derive(Clone, Copy, Debug, PartialEq, Eq, PartialOrd, Ord)]
struct Place {
    procedure: u64,
    address: u64,
    at: usize,
}

fn point_places(alloc: Global, drafts: &[Draft]) -> Result<Vec<Place>, NoTable> {
    let mut places = Vec::new(alloc);
    let mut at = 0;
    while at < drafts.len() {
        let (procedure, address) = (drafts[at].procedure, drafts[at].address);
        push(
            &mut places,
            Place {
                procedure,
                address,
                at,
            },
        )?;
        at += 1;
    }
    sorted(places)
}

fn procedure_places(alloc: Global, known: &[Known]) -> Result<Vec<Place>, NoTable> {
    let mut places = Vec::new(alloc);
    let mut at = 0;
    while at < known.len() {
        let procedure = known[at].told.procedure;
        push(
            &mut places,
            Place {
                procedure,
                address: 0,
                at,
            },
        )?;
        at += 1;
    }
    sorted(places)
}

fn sorted(places: Vec<Place>) -> Result<Vec<Place>, NoTable> {
    let mut places = places;
    match places.sort() {
        Ok(()) => Ok(places),
        Err(_) => Err(NoTable::Memory),
    }
}

fn points(
    alloc: Global,
    image: &Image,
    places: &[Place],
    drafts: &[Draft],
) -> Result<Items<Point>, NoTable>
    ensures { IfOk result (λ points. AreLined image.now points) }
{
    let mut points = Items::new(alloc);
    for place in places {
        push_at(alloc, image, &mut points, drafts, place.at)?;
    }
    Ok(points)
}

fn push_at(
    alloc: Global,
    image: &Image,
    points: &mut Items<Point>,
    drafts: &[Draft],
    at: usize,
) -> Result<(), NoTable>
    requires { AreLined image.now points.old }
    ensures { OnOk result (AreLined image.now points.new) }
{
    if at >= drafts.len() {
        return Ok(());
    }
    let draft = &drafts[at];
    let state = kept(copied(alloc, &draft.state))?;
    let point = lined_point(image, draft.procedure, draft.address, draft.marked, state);
    match points.push(point) {
        Ok(()) => Ok(()),
        Err(_) => Err(NoTable::Memory),
    }
}

fn procedures(alloc: Global, places: &[Place], known: &[Known]) -> Result<Items<Told>, NoTable> {
    let mut procedures = Vec::new(alloc);
    for place in places {
        if place.at < known.len() {
            push(&mut procedures, known[place.at].told)?;
        }
    }
    Ok(Items::from_vec(procedures))
}

/// The rows of a search, which ascend.
pub(crate) fn listed(
    alloc: Global,
    image: &Image,
    all: &Drafts,
    guesses: Items<Guess>,
    silent: Items<u64>,
) -> Result<Rows, NoTable>
    ensures lined { IfOk result (λ rows. AreLined image.now rows.points) }
    ensures given { IfOk result (λ rows. (rows.guesses ≡ guesses) × (rows.silent ≡ silent)) }
{
    let point_places = point_places(alloc, &all.drafts)?;
    let procedure_places = procedure_places(alloc, &all.known)?;
    let points = points(alloc, image, &point_places, &all.drafts)?;
    let procedures = procedures(alloc, &procedure_places, &all.known)?;
    Ok(Rows {
        points,
        procedures,
        guesses,
        silent,
    })
}
