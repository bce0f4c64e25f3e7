//! Activations, as plain data.

use crate::activation::Activation;
use sqlite_items::Items;
use std::marker::Model;

/// The activations of a run: the earlier ones, from the first on, and the last one.
#[derive(Drop)]
pub(crate) struct Stack {
    pub earlier: Items<Activation>,
    pub last: Activation,
}

impl Model for Stack {
    ghost use Rattle.run_watch.specs.Activations.{Stack};

    ghost Value = { Stack };

    ghost view = { λ s. record { earlier = s.earlier; last = s.last } };
}

impl Stack {
    ghost use Rattle.std.specs.Prelude.{◌≡◌, length};

    /// The procedure of the last activation.
    pub(crate) fn procedure(&self) -> u64
        ensures { result ≡ self.now.last.procedure }
    {
        self.last.procedure
    }

    /// How many activations there are before the last one.
    pub(crate) fn earlier_count(&self) -> usize
        ensures { result ≡ length self.now.earlier }
    {
        self.earlier.len()
    }
}
