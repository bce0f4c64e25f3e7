//! Where live slots of earlier activations are, by address.

ghost use Rattle.std.specs.Prelude.{◌≡◌, [], is_some, OnOk};
ghost use Rattle.run_watch.specs.Activations.{slots_of};
ghost use Rattle.run_watch.specs.Marks.{depth_at, group, IsMarked, AreMarked, IsMarkedName, Keeps, KeepsBelow};

use crate::activation::Activation;
use crate::live_slots::slot_address;
use report_text::Name;
use std::alloc::{AllocError, Global};
use std::collections::HashMap;
use std::marker::Model;

/// How many bytes a group has, which is how many a slot has.
const GROUP: u64 = 8;

/// Marks of groups of 8 bytes: each group that has a byte of a slot of an earlier activation is marked with the depth of the
/// first such activation. A call marks the slots of the activation that was the last one, and its return takes these marks back.
#[derive(Drop)]
pub struct SlotMarks {
    depths: HashMap<u64, usize>,
}

impl Model for SlotMarks {
    ghost use Rattle.run_watch.specs.Marks.{Marks};

    ghost Value = { Marks };

    ghost view = { λ m. m.depths.entries };
}

impl SlotMarks {
    /// No group is marked.
    pub(crate) fn new(alloc: Global) -> SlotMarks
        ensures { result ≡ [] }
    {
        SlotMarks {
            depths: HashMap::new(alloc),
        }
    }

    /// The group of a byte is marked.
    pub fn has(&self, byte: u64) -> bool
        ensures { result ≡ is_some (depth_at self.now (group byte)) }
    {
        self.depths.contains_key(&(byte / GROUP))
    }

    // Marks the group of a byte with a depth, unless it is marked with a lower one.
    fn mark(&mut self, byte: u64, depth: usize) -> Result<(), AllocError>
        ensures there { OnOk result (IsMarked self.new (group byte) depth) }
        ensures kept { OnOk result (Keeps self.old self.new) }
    {
        match self.depths.get(&(byte / GROUP)).copied() {
            Some(first) if first <= depth => Ok(()),
            _ => {
                self.depths.insert(byte / GROUP, depth)?;
                Ok(())
            }
        }
    }

    // Takes the mark of the group of a byte back, if it has this depth.
    fn unmark(&mut self, byte: u64, depth: usize)
        ensures { KeepsBelow depth self.old self.new }
    {
        if self.depths.get(&(byte / GROUP)).copied() == Some(depth) {
            self.depths.remove(&(byte / GROUP));
        }
    }

    /// Marks the slots of an activation at a depth.
    pub(crate) fn mark_slots(
        &mut self,
        names: &[Name],
        depth: usize,
        activation: &Activation,
    ) -> Result<(), AllocError>
        ensures there { OnOk result (AreMarked self.new (slots_of names.now depth activation.now)) }
        ensures kept { OnOk result (Keeps self.old self.new) }
    {
        for name in names {
            self.mark_name(*name, depth, activation)?;
        }
        Ok(())
    }

    /// Takes the marks of the slots of an activation at a depth back.
    pub(crate) fn unmark_slots(&mut self, names: &[Name], depth: usize, activation: &Activation)
        ensures { KeepsBelow depth self.old self.new }
    {
        for name in names {
            self.unmark_name(*name, depth, activation);
        }
    }

    // Marks the slot that a name is of an activation.
    fn mark_name(
        &mut self,
        name: Name,
        depth: usize,
        activation: &Activation,
    ) -> Result<(), AllocError>
        ensures there { OnOk result (IsMarkedName self.new depth activation.now name) }
        ensures kept { OnOk result (Keeps self.old self.new) }
    {
        match name {
            Name::Slot { proc_entry, below } if proc_entry == activation.procedure => {
                let address = slot_address(activation, below);
                self.mark(address, depth)?;
                self.mark(address.wrapping_add(GROUP - 1), depth)
            }
            _ => Ok(()),
        }
    }

    // Takes its marks back.
    fn unmark_name(&mut self, name: Name, depth: usize, activation: &Activation)
        ensures { KeepsBelow depth self.old self.new }
    {
        match name {
            Name::Slot { proc_entry, below } if proc_entry == activation.procedure => {
                let address = slot_address(activation, below);
                self.unmark(address, depth);
                self.unmark(address.wrapping_add(GROUP - 1), depth);
            }
            _ => {}
        }
    }
}
