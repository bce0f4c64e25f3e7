//! Sets of positions of names.

ghost use Rattle.std.specs.Prelude.{◌≡◌, ◌≤◌, length};
ghost use Rattle.affine_lift.specs.Lifting.{chooses, is_slot_of, positions_where};

use crate::chosen::Chosen;
use crate::frame::is_touched;
use crate::width::Width;
use report_text::Name;

/// The positions of the names that are meant, bit i for position i.
pub fn positions_where(names: &[Name], chosen: Chosen) -> u16
    requires { length names.now ≤ 16 }
    ensures { result ≡ positions_where (chooses chosen) names.now }
{
    let mut positions = 0;
    for (i, name) in names.iter().enumerate() {
        positions += u16::from(chooses(chosen, name)) << i;
    }
    positions
}

fn chooses(chosen: Chosen, name: &Name) -> bool
    ensures { result ≡ chooses chosen name.now }
{
    match chosen {
        Chosen::Registers => matches!(name, Name::Register(_)),
        Chosen::SlotsOf(entry) => is_slot_of(entry, name),
        Chosen::SlotsTouched(entry, store) => is_touched(Width::Wide, entry, store, name),
    }
}

fn is_slot_of(entry: u64, name: &Name) -> bool
    ensures { result ≡ is_slot_of entry name.now }
{
    match *name {
        Name::Register(_) => false,
        Name::Slot { proc_entry, .. } => proc_entry == entry,
    }
}
