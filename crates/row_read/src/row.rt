//! The reader of a row.

ghost use Rattle.std.specs.Prelude.{◌↔◌, IsTrue, All};
ghost use Rattle.report_lines.specs.NameTexts.{IsAddressed};
ghost use Rattle.row_read.specs.Rows.{IsRowText, IsRowReading};

use crate::fronts::read_fronts;
use crate::refusal::RowRefusal;
use report_lines::read_relation;
use report_text::{Name, Tracked};
use word_rows::Row;

/// Whether the text is of a row's form, whatever its names.
pub fn row_shape(text: &str) -> bool
    ensures { IsTrue result ↔ IsRowText text.now }
{
    read_relation(&[], 0, text.as_bytes()).is_some()
}

/// The row over the tracked names that the text tells in the procedure at this address, or the first of its terms that breaks
/// a rule.
pub fn read_row(text: &str, tracked: &Tracked, procedure: u64) -> Result<Row<17>, RowRefusal>
    requires { IsRowText text.now }
    ensures { IsRowReading tracked.now.names procedure text.now result }
{
    let names = tracked.names.as_slice();
    are_addressed(names);
    read_fronts(names, procedure, text.as_bytes())
}

// Each name's procedure is a word, as it is where it is written.
fn are_addressed(names: &[Name])
    ensures { All IsAddressed names.now }
{
    for name in names {
        is_addressed(*name);
    }
}

fn is_addressed(name: Name)
    ensures { IsAddressed name }
{
    match name {
        Name::Register(_) => {}
        Name::Slot { .. } => {}
    }
}
