//! The words of the names that are seen.

ghost use Rattle.std.specs.Prelude.{◌≡◌, ◌≤◌, ◌<◌, ℕ, All, length, slice_get, slice_index, Some};
ghost use Rattle.report_text.specs.Names.{IsName};
ghost use Rattle.rv_step.specs.Machines.{hart_of};
ghost use Rattle.word_rows.specs.Rows.{words_of};
ghost use Rattle.run_watch.specs.Activations.{AreValues, word_of};

use crate::activation::Activation;
use crate::live_slots::slot_address;
use report_text::Name;
use rv_step::Machine;
use word_rows::Row;

/// The words of the names that are seen in an activation, 0 for others, and 1 at position 16, as a row.
pub(crate) fn values(
    machine: &Machine,
    regs: &[u64; 32],
    names: &[Name],
    last: &Activation,
) -> Row<17>
    requires few { length names.now ≤ 16 }
    requires named { All IsName names.now }
    requires registers { regs.now ≡ (hart_of machine.now).registers }
    ensures { AreValues names.now last.now (hart_of machine.now) result }
{
    Row::from_words(&seen_words(machine, regs, names, last))
}

/// The same words. `regs` are the machine's.
pub(crate) fn seen_words(
    machine: &Machine,
    regs: &[u64; 32],
    names: &[Name],
    last: &Activation,
) -> [u64; 17]
    requires few { length names.now ≤ 16 }
    requires named { All IsName names.now }
    requires registers { regs.now ≡ (hart_of machine.now).registers }
    ensures { AreValues names.now last.now (hart_of machine.now) result }
{
    let mut words = [0; 17];
    words[16] = 1;
    for (k, name) in names.iter().enumerate() {
        words[k] = word_of(machine, regs, *name, last);
    }
    each_is_word(&words);
    words
}

// Items of 64 bits are words.
fn each_is_word(words: &[u64])
    ensures { words_of words.now ≡ words.now }
{}

// The word of a name.
fn word_of(machine: &Machine, regs: &[u64; 32], name: Name, last: &Activation) -> u64
    requires named { IsName name }
    requires registers { regs.now ≡ (hart_of machine.now).registers }
    ensures { result ≡ word_of last.now (hart_of machine.now) name }
{
    match name {
        Name::Register(r) => regs[usize::from(r)],
        Name::Slot { proc_entry, below } if proc_entry == last.procedure => {
            machine.read_word(slot_address(last, below))
        }
        Name::Slot { .. } => 0,
    }
}
