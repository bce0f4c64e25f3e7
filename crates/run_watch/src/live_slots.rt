//! The live slots of a run.

ghost use Rattle.std.specs.Prelude.{◌≡◌, ◌+◌, ◌<◌, length, All, false};
ghost use Rattle.std.specs.List.{list_any, enumerate_from};
ghost use Rattle.std.specs.Option.{option_map_or};
ghost use Rattle.run_watch.specs.Activations.{slot_in, slot_address, slots_of, slots_from};
ghost use Rattle.run_watch.specs.Slots.{live, IsApart};
ghost use Rattle.run_watch.specs.Moments.{slots_in};
ghost use Rattle.run_watch.specs.Judges.{holds_kept, has_bit};
ghost use Rattle.run_watch.specs.Quiet.{is_close, may_change};

use crate::activation::Activation;
use crate::context::LiveSlots;
use crate::places::is_among;
use report_text::Name;

/// Which bytes of live slots may not change: the point's activation has this depth, and the slots at these positions are
/// writable there.
#[derive(Clone, Copy)]
pub(crate) struct Allowed {
    pub depth: u32,
    pub writable: u16,
}

impl LiveSlots<'_> {
    /// A slot of an earlier activation may have one of the 8 bytes from an address on.
    pub fn is_near(&self, address: u64) -> bool
        ensures { result ≡ false → All (IsApart address) (slots_in self.now).earlier }
    {
        self.marks.has(address) || self.marks.has(address.wrapping_add(7))
    }

    /// A byte lies in a live slot that isn't writable.
    pub(crate) fn keep(&self, allowed: Allowed, byte: u64) -> bool
        ensures { result ≡ list_any (holds_kept allowed.depth allowed.writable byte) (live (slots_in self.now)) }
    {
        self.earlier_keep(allowed, byte) || self.last_keeps(allowed, byte)
    }

    // It lies in such a slot of an earlier activation.
    fn earlier_keep(&self, allowed: Allowed, byte: u64) -> bool
        ensures { result ≡ list_any (holds_kept allowed.depth allowed.writable byte) (slots_in self.now).earlier }
    {
        self.marks.has(byte) && earlier_keep(self.names, self.earlier, allowed, byte)
    }

    /// It lies in such a slot of the last activation.
    pub(crate) fn last_keeps(&self, allowed: Allowed, byte: u64) -> bool
        ensures { result ≡ list_any (holds_kept allowed.depth allowed.writable byte) (slots_in self.now).last }
    {
        keeps(self.names, self.earlier.len() + 1, self.last, allowed, byte)
    }

    /// A store at an address may change a byte of a slot of the last activation that isn't writable.
    pub(crate) fn last_may_change(&self, allowed: Allowed, address: u64) -> bool
        ensures { result ≡ list_any (may_change allowed.depth allowed.writable address) (slots_in self.now).last }
    {
        may_change(
            self.names,
            self.earlier.len() + 1,
            self.last,
            allowed,
            address,
        )
    }
}

// A store at an address may change a byte of a slot of the activation at a depth that isn't writable.
fn may_change(
    names: &[Name],
    depth: usize,
    activation: &Activation,
    allowed: Allowed,
    address: u64,
) -> bool
    ensures { result ≡ list_any (may_change allowed.depth allowed.writable address) (slots_of names.now depth activation.now) }
{
    any_may_change(names, depth, activation, allowed, address)
}

// So it is with one of the names.
fn any_may_change(
    names: &[Name],
    depth: usize,
    activation: &Activation,
    allowed: Allowed,
    address: u64,
) -> bool
    ensures { result ≡ list_any (λ item. option_map_or (may_change allowed.depth allowed.writable address) (slot_in depth activation.now item) false) (enumerate_from 0 names.now) }
{
    names.iter().enumerate().any(|(k, name)| name_may_change(
        k, name, depth, activation, allowed, address,
    ))
}

// So it is with the name at a position.
fn name_may_change(
    position: usize,
    name: &Name,
    depth: usize,
    activation: &Activation,
    allowed: Allowed,
    address: u64,
) -> bool
    ensures { result ≡ option_map_or (may_change allowed.depth allowed.writable address) (slot_in depth activation.now (position, name.now)) false }
{
    match *name {
        Name::Slot { proc_entry, below } if proc_entry == activation.procedure => {
            is_close(slot_address(activation, below), address)
                && !(depth == allowed.depth as usize && has_bit(allowed.writable, position))
        }
        _ => false,
    }
}

// One of the 8 bytes from an address on is one of the 8 bytes from a place on.
fn is_close(place: u64, address: u64) -> bool
    ensures { result ≡ is_close place address }
{
    address.wrapping_sub(place).wrapping_add(7) < 15
}

// A byte lies in a slot of these activations, from the first on, that isn't writable.
fn earlier_keep(names: &[Name], activations: &[Activation], allowed: Allowed, byte: u64) -> bool
    ensures { result ≡ list_any (holds_kept allowed.depth allowed.writable byte) (slots_from names.now 1 activations.now) }
{
    let mut depth = 1;
    for activation in activations {
        if keeps(names, depth, activation, allowed, byte) {
            return true;
        }
        depth += 1;
    }
    false
}

// A byte lies in a slot of the activation at a depth that isn't writable.
fn keeps(names: &[Name], depth: usize, activation: &Activation, allowed: Allowed, byte: u64) -> bool
    ensures { result ≡ list_any (holds_kept allowed.depth allowed.writable byte) (slots_of names.now depth activation.now) }
{
    any_keeps(names, depth, activation, allowed, byte)
}

// So it is with one of the names.
fn any_keeps(
    names: &[Name],
    depth: usize,
    activation: &Activation,
    allowed: Allowed,
    byte: u64,
) -> bool
    ensures { result ≡ list_any (λ item. option_map_or (holds_kept allowed.depth allowed.writable byte) (slot_in depth activation.now item) false) (enumerate_from 0 names.now) }
{
    names.iter().enumerate().any(|(k, name)| name_keeps(k, name, depth, activation, allowed, byte))
}

// So it is with the name at a position.
fn name_keeps(
    position: usize,
    name: &Name,
    depth: usize,
    activation: &Activation,
    allowed: Allowed,
    byte: u64,
) -> bool
    ensures { result ≡ option_map_or (holds_kept allowed.depth allowed.writable byte) (slot_in depth activation.now (position, name.now)) false }
{
    match *name {
        Name::Slot { proc_entry, below } if proc_entry == activation.procedure => {
            is_among(byte, slot_address(activation, below), 8)
                && !(depth == allowed.depth as usize && has_bit(allowed.writable, position))
        }
        _ => false,
    }
}

/// The address of the slot so many bytes below sp at an activation's entry.
pub(crate) fn slot_address(activation: &Activation, below: u16) -> u64
    ensures { result ≡ slot_address activation.now below }
{
    activation.entry_sp.wrapping_sub(u64::from(below))
}

/// The bit of this number is set.
pub(crate) fn has_bit(set: u16, i: usize) -> bool
    ensures { result ≡ has_bit set i }
{
    i < 16 && (set >> i) % 2 == 1
}
