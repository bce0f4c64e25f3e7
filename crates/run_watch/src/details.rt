//! What each kind of watch finds in a record.

ghost use Rattle.std.specs.Prelude.{◌≡◌, ◌<◌, ◌==◌, not, ◌&&◌, nat_lt, find, position, option_map, slice_index, length, All};
ghost use Rattle.std.specs.List.{list_any, list_all};
ghost use Rattle.word_rows.specs.Rows.{dot};
ghost use Rattle.run_watch.specs.Slots.{byte_at, live};
ghost use Rattle.run_watch.specs.Moments.{moment_of, slots_in};
ghost use Rattle.run_watch.specs.Judges.{byte, changed_bytes, is_changed, has_bit, is_writable, holds_kept, holds_code, is_kept, is_code, is_restored, is_as_at_entry, is_return_to, is_home, relation_detail, store_detail, return_detail, code_detail, found_at};

use crate::code_bytes::CodeBytes;
use crate::context::{Found, LiveSlots, WatchCtx};
use crate::live_slots::{Allowed, has_bit};
use rv_step::{StepRec, StoreRec};
use word_rows::Row;

/// The places of a word's bytes.
const PLACES: [u8; 8] = [0, 1, 2, 3, 4, 5, 6, 7];

/// The register sp.
const SP: usize = 2;

/// The registers s0 to s11.
const SAVED: [usize; 12] = [8, 9, 18, 19, 20, 21, 22, 23, 24, 25, 26, 27];

/// Their places among these.
const SAVED_PLACES: [u8; 12] = [0, 1, 2, 3, 4, 5, 6, 7, 8, 9, 10, 11];

/// What is found at a record with this detail.
pub(crate) fn found_at(rec: &StepRec, detail: Option<u64>) -> Option<Found>
    ensures { result ≡ option_map (found_at rec.now) detail }
{
    Some(Found {
        index: rec.index,
        address: rec.pc,
        detail: detail?,
    })
}

/// 0 where the point is called unreached, else the number of the first row that the values break.
pub(crate) fn relation_detail(ctx: &WatchCtx) -> Option<u64>
    ensures { result ≡ relation_detail (moment_of ctx.now) }
{
    if ctx.unreached {
        return Some(0);
    }
    let broken = first_broken(ctx.rows, &ctx.values)?;
    Some(broken as u64)
}

// The number of the first row that values break.
fn first_broken(rows: &[Row<17>], values: &Row<17>) -> Option<usize>
    ensures { result ≡ position (λ row. not (dot row values.now == 0)) rows.now }
{
    rows.iter().position(|row| row.dot(values) != 0)
}

/// The address of the first changed byte of a live slot that the point doesn't assign.
pub(crate) fn store_detail(ctx: &WatchCtx, rec: &StepRec) -> Option<u64>
    ensures { result ≡ store_detail (moment_of ctx.now) rec.now }
{
    match rec.store {
        Some(store) if rec.made => kept_byte(ctx, &store),
        _ => None,
    }
}

// The address of the first byte that a store changes of a live slot which the point doesn't assign.
fn kept_byte(ctx: &WatchCtx, store: &StoreRec) -> Option<u64>
    ensures { result ≡ find (is_kept (moment_of ctx.now)) (changed_bytes store.now) }
{
    let allowed = Allowed {
        depth: ctx.depth,
        writable: ctx.writable,
    };
    let slots = LiveSlots {
        names: ctx.names,
        earlier: ctx.earlier,
        last: ctx.last,
        marks: ctx.marks,
    };
    if slots.is_near(store.address) {
        first_kept(&slots, allowed, store)
    } else {
        first_kept_by_last(&slots, allowed, store)
    }
}

// The address of the first byte that a store changes of the slots, but for those that are writable.
fn first_kept(slots: &LiveSlots, allowed: Allowed, store: &StoreRec) -> Option<u64>
    ensures { result ≡ find (λ a. list_any (holds_kept allowed.depth allowed.writable a) (live (slots_in slots.now))) (changed_bytes store.now) }
{
    PLACES
        .iter()
        .filter(|k| is_changed(store, **k))
        .map(|k| byte_at(store.address, *k))
        .find(|a| slots.keep(allowed, *a))
}

// The same of the slots of the last activation.
fn first_kept_by_last(slots: &LiveSlots, allowed: Allowed, store: &StoreRec) -> Option<u64>
    ensures { result ≡ find (λ a. list_any (holds_kept allowed.depth allowed.writable a) (slots_in slots.now).last) (changed_bytes store.now) }
{
    PLACES
        .iter()
        .filter(|k| is_changed(store, **k))
        .map(|k| byte_at(store.address, *k))
        .find(|a| slots.last_keeps(allowed, *a))
}

/// The address to which a return leads that isn't home.
pub(crate) fn return_detail(ctx: &WatchCtx, rec: &StepRec) -> Option<u64>
    ensures { result ≡ return_detail (moment_of ctx.now) rec.now }
{
    if rec.made && ctx.is_return && !is_home(ctx, rec) {
        Some(rec.next)
    } else {
        None
    }
}

// The step leads to the return address, with sp and the registers on which the caller relies as at the entry.
fn is_home(ctx: &WatchCtx, rec: &StepRec) -> bool
    ensures { result ≡ is_home (moment_of ctx.now) rec.now }
{
    ctx.return_to == Some(rec.next) && is_restored(ctx, &rec.regs)
}

// sp and the registers on which the caller relies are as they were at the entry.
fn is_restored(ctx: &WatchCtx, regs: &[u64; 32]) -> bool
    ensures { result ≡ is_restored (moment_of ctx.now) regs.now }
{
    regs[SP] == ctx.entry_sp && are_as_at_entry(ctx, regs, &SAVED_PLACES)
}

// So it is with each of these saved registers.
fn are_as_at_entry(ctx: &WatchCtx, regs: &[u64; 32], places: &[u8]) -> bool
    requires { All (λ i. i < 12) places.now }
    ensures { result ≡ list_all (is_as_at_entry (moment_of ctx.now) regs.now) places.now }
{
    places
        .iter()
        .all(|i| is_as_at_entry(ctx, regs, usize::from(*i)))
}

// The caller doesn't rely on this saved register, or it is as it was at the entry.
fn is_as_at_entry(ctx: &WatchCtx, regs: &[u64; 32], i: usize) -> bool
    requires { i < 12 }
    ensures { result ≡ is_as_at_entry (moment_of ctx.now) regs.now i }
{
    !has_bit(ctx.relied, i) || regs[SAVED[i]] == ctx.entry_saved[i]
}

/// The address of the first changed byte of an instruction.
pub(crate) fn code_detail(ctx: &WatchCtx, rec: &StepRec) -> Option<u64>
    ensures { result ≡ code_detail (moment_of ctx.now) rec.now }
{
    match rec.store {
        Some(store) if rec.made => code_byte(ctx, &store),
        _ => None,
    }
}

// The address of the first byte of an instruction that a store changes.
fn code_byte(ctx: &WatchCtx, store: &StoreRec) -> Option<u64>
    ensures { result ≡ find (is_code (moment_of ctx.now)) (changed_bytes store.now) }
{
    if ctx.code.is_near(store.address) {
        first_code(ctx.code, store)
    } else {
        None
    }
}

// The address of the first byte that a store changes of these instructions.
fn first_code(code: &CodeBytes, store: &StoreRec) -> Option<u64>
    ensures { result ≡ find (λ a. list_any (holds_code a) code.now) (changed_bytes store.now) }
{
    PLACES
        .iter()
        .filter(|k| is_changed(store, **k))
        .map(|k| byte_at(store.address, *k))
        .find(|a| code.has(*a))
}

// A store changes the byte at this place.
fn is_changed(store: &StoreRec, k: u8) -> bool
    requires { k < 8 }
    ensures { result ≡ is_changed store.now k }
{
    k < store.width && byte(store.before, k) != byte(store.after, k)
}

// A byte of a word, the lowest first.
fn byte(word: u64, k: u8) -> u64
    requires { k < 8 }
    ensures { result ≡ byte k word }
{
    (word >> (8 * k)) % 256
}

// The address so many bytes behind another.
fn byte_at(address: u64, k: u8) -> u64
    ensures { result ≡ byte_at address k }
{
    address.wrapping_add(u64::from(k))
}
