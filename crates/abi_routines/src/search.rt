//! The search of a walk that shows a fault.

ghost use Rattle.std.specs.Prelude.{◌<◌, length};
ghost use Rattle.entry_tables.specs.Settling.{AreLined, IsLined};

use abi_verdicts::{is_away, is_lost, is_own, shows};
use elf_image::Image;
use entry_tables::{Point, Rows, find, flow_at};
use entry_values::{Flow, Memory, Slot, State, Value, start, value_at};
use entry_walks::{onto, value_in};
use indexmap::IndexSet;
use sqlite_items::Items;
use std::alloc::Global;

const MOST_PLACES: usize = 65_536;

// Where the search came: an address, the state that the way there makes, and the place before it, one more than its
// number; 0 at the entry.
#[derive(Drop)]
struct Place {
    address: u64,
    state: State,
    before: usize,
}

// What tells two ways to an address apart: whether the register has its own word, whether ra has, where sp is, and in
// which slots these words are.
#[derive(Clone, Copy, PartialEq, Eq, Hash)]
struct Mark {
    address: u64,
    own: u8,
    home: u8,
    stack: u64,
    saved: u64,
}

#[derive(Drop)]
struct Places {
    places: Vec<Place>,
    marks: IndexSet<Mark>,
}

/// The addresses of a shortest walk on which a fault of the register shows, as far as one is found; else none.
pub(crate) fn look_for(
    alloc: Global,
    image: &Image,
    rows: &Rows,
    p: u64,
    r: u8,
) -> Result<Items<u64>, Memory>
    requires { AreLined image.now rows.now.points }
{
    let mut all = Places {
        places: Vec::new(alloc),
        marks: IndexSet::new(alloc),
    };
    add(&mut all, r, p, start(alloc), 0)?;
    let mut at = 0;
    let mut left = MOST_PLACES;
    while left > 0 && at < all.places.len() {
        if follow(alloc, image, rows, p, r, &mut all, at)? {
            return way_to(alloc, &all.places, at);
        }
        at += 1;
        left -= 1;
    }
    Ok(Items::new(alloc))
}

// Whether a fault shows at a place; else the places behind it are added.
fn follow(
    alloc: Global,
    image: &Image,
    rows: &Rows,
    p: u64,
    r: u8,
    all: &mut Places,
    at: usize,
) -> Result<bool, Memory>
    requires { AreLined image.now rows.now.points }
{
    if at >= all.places.len() {
        return Ok(false);
    }
    let flow = flow_of(alloc, image, rows, p, &all.places[at])?;
    if shows(r, value_in(&all.places[at].state.values, r), &flow) {
        return Ok(true);
    }
    match &flow {
        Flow::On(targets, _) | Flow::ByTable(targets) => {
            for b in targets.as_slice() {
                go(alloc, image, rows, r, all, at, *b, &flow)?;
            }
        }
        Flow::CallTo(_, next) | Flow::Foreign(next) | Flow::Past(_, next, _) => {
            go(alloc, image, rows, r, all, at, *next, &flow)?
        }
        _ => {}
    }
    Ok(false)
}

// The flow at a place; none goes on where the table has no point there.
fn flow_of(alloc: Global, image: &Image, rows: &Rows, p: u64, place: &Place) -> Result<Flow, Memory>
    requires { AreLined image.now rows.now.points }
{
    match find(rows.points.as_slice(), p, place.address) {
        Some(i) if i < rows.points.len() => flow_by_number(alloc, image, rows, i, &place.state),
        _ => Ok(Flow::Halt),
    }
}

fn flow_by_number(
    alloc: Global,
    image: &Image,
    rows: &Rows,
    i: usize,
    s: &State,
) -> Result<Flow, Memory>
    requires within { i < length rows.now.points }
    requires lined { AreLined image.now rows.now.points }
{
    flow_on(alloc, image, rows, &rows.points.as_slice()[i], s)
}

fn flow_on(
    alloc: Global,
    image: &Image,
    rows: &Rows,
    point: &Point,
    s: &State,
) -> Result<Flow, Memory>
    requires { IsLined image.now point.now }
{
    let guesses = rows.guesses.as_slice();
    flow_at(
        alloc,
        image,
        guesses,
        point.address,
        point.line,
        point.marked,
        s,
    )
}

// The place at b behind another one, if no such place was found before.
fn go(
    alloc: Global,
    image: &Image,
    rows: &Rows,
    r: u8,
    all: &mut Places,
    at: usize,
    b: u64,
    flow: &Flow,
) -> Result<(), Memory> {
    if at >= all.places.len() || all.places.len() >= MOST_PLACES {
        return Ok(());
    }
    let place = &all.places[at];
    match onto(alloc, image, rows, &place.state, place.address, b, flow)? {
        Some(state) => add(all, r, b, state, at + 1),
        None => Ok(()),
    }
}

fn add(all: &mut Places, r: u8, address: u64, state: State, before: usize) -> Result<(), Memory> {
    let mark = mark_of(r, address, &state);
    if all.marks.contains(&mark) {
        return Ok(());
    }
    if all.marks.insert(mark).is_err() {
        return Err(Memory);
    }
    push(
        &mut all.places,
        Place {
            address,
            state,
            before,
        },
    )
}

fn mark_of(r: u8, address: u64, s: &State) -> Mark {
    Mark {
        address,
        own: class_of(r, value_in(&s.values, r)),
        home: class_of(1, value_at(s, 1)),
        stack: place_in(value_at(s, 2)),
        saved: saved_in(s.slots.as_slice(), r),
    }
}

// 0 for the word of the entry, 1 for a fault, 2 for what is neither.
fn class_of(r: u8, v: Value) -> u8 {
    if is_own(r, v) {
        0
    } else if r == 1 && is_away(v) || r != 1 && is_lost(r, v) {
        1
    } else {
        2
    }
}

fn place_in(v: Value) -> u64 {
    match v {
        Value::Is(2, k) => k,
        _ => 1,
    }
}

fn saved_in(slots: &[Slot], r: u8) -> u64 {
    let mut sum = 0u64;
    for slot in slots {
        if is_own(r, slot.value) {
            sum = sum.wrapping_add(slot.offset.wrapping_mul(0x9e37_79b9_7f4a_7c15));
        } else if is_own(1, slot.value) {
            sum = sum.wrapping_add(slot.offset.wrapping_mul(0xc2b2_ae3d_27d4_eb4f));
        }
    }
    sum
}

// The addresses from the entry to a place, without the entry.
fn way_to(alloc: Global, places: &[Place], at: usize) -> Result<Items<u64>, Memory> {
    let mut back = Vec::new(alloc);
    let mut here = at;
    let mut left = places.len();
    while left > 0 && here < places.len() && places[here].before > 0 {
        push(&mut back, places[here].address)?;
        here = places[here].before - 1;
        left -= 1;
    }
    turned(alloc, back)
}

fn turned(alloc: Global, back: Vec<u64>) -> Result<Items<u64>, Memory> {
    let mut back = back;
    let mut walk = Vec::new(alloc);
    let mut left = back.len();
    while left > 0 {
        if let Some(b) = back.pop() {
            push(&mut walk, b)?;
        }
        left -= 1;
    }
    Ok(Items::from_vec(walk))
}

fn push<T: Drop>(items: &mut Vec<T>, item: T) -> Result<(), Memory> {
    match items.push(item) {
        Ok(()) => Ok(()),
        Err(_) => Err(Memory),
    }
}
