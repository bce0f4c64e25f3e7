//! The live slots, one by one.

ghost use Rattle.std.specs.Prelude.{◌≡◌, ◌≤◌, ◌<◌, ◌++◌, [], length, IfOk, OnOk};
ghost use Rattle.std.specs.List.{cons_option};
ghost use Rattle.run_watch.specs.Activations.{slot_in, slots_of, slots_from};
ghost use Rattle.run_watch.specs.Slots.{live};
ghost use Rattle.run_watch.specs.Moments.{moment_of};

use crate::activation::Activation;
use crate::context::WatchCtx;
use crate::live_slots::slot_address;
use crate::places::SlotAt;
use report_text::Name;
use sqlite_items::Items;
use std::alloc::{AllocError, Global};

impl WatchCtx<'_> {
    /// The live slots: those of each activation, from the first on, in the order of the names.
    pub fn slots(&self, alloc: Global) -> Result<Items<SlotAt>, AllocError>
        ensures { IfOk result (λ slots. slots ≡ live (moment_of self.now).slots) }
    {
        let mut slots = earlier_slots(alloc, self.names, self.earlier)?;
        let depth = self.earlier.len() as u32 + 1;
        push_slots(&mut slots, self.names, depth, self.last)?;
        Ok(slots)
    }
}

// The slots of activations, of which the first has depth 1.
fn earlier_slots(
    alloc: Global,
    names: &[Name],
    activations: &[Activation],
) -> Result<Items<SlotAt>, AllocError>
    requires names { length names.now ≤ 16 }
    requires few { length activations.now < 65536 }
    ensures { IfOk result (λ slots. slots ≡ slots_from names.now 1 activations.now) }
{
    let mut slots = Items::new(alloc);
    let mut depth = 1;
    for activation in activations {
        push_slots(&mut slots, names, depth, activation)?;
        depth += 1;
    }
    Ok(slots)
}

// Puts the slots of the activation at a depth behind others.
fn push_slots(
    slots: &mut Items<SlotAt>,
    names: &[Name],
    depth: u32,
    activation: &Activation,
) -> Result<(), AllocError>
    requires { length names.now ≤ 16 }
    ensures { OnOk result (slots.new ≡ slots.old ++ slots_of names.now depth activation.now) }
{
    let mut position = 0;
    for name in names {
        push_slot(slots, slot_in(depth, position, *name, activation))?;
        position += 1;
    }
    Ok(())
}

// Puts a slot, if there is one, behind others.
fn push_slot(slots: &mut Items<SlotAt>, slot: Option<SlotAt>) -> Result<(), AllocError>
    ensures { OnOk result (slots.new ≡ slots.old ++ cons_option slot []) }
{
    match slot {
        Some(slot) => slots.push(slot),
        None => Ok(()),
    }
}

// The name at a position, as a slot of the activation at a depth.
fn slot_in(depth: u32, position: u8, name: Name, activation: &Activation) -> Option<SlotAt>
    ensures { result ≡ slot_in depth activation.now (position, name) }
{
    match name {
        Name::Slot { proc_entry, below } if proc_entry == activation.procedure => Some(SlotAt {
            depth,
            position,
            address: slot_address(activation, below),
        }),
        _ => None,
    }
}
