//! The reader of a point.

ghost use Rattle.row_read.specs.Points.{IsPointReading};

use numeral_read::read_hex;
use report_lines::cut_at;

/// The procedure and the address that the text tells, with a comma between them.
pub fn read_point(text: &str) -> Option<(u64, u64)>
    ensures { IsPointReading text.now result }
{
    point_of(text.as_bytes())
}

fn point_of(text: &[u8]) -> Option<(u64, u64)>
    ensures { IsPointReading text.now result }
{
    let Some((front, behind)) = cut_at(b',', text) else {
        return None;
    };
    match read_hex(front) {
        None => None,
        Some(procedure) => match read_hex(behind) {
            None => None,
            Some(address) => Some((procedure, address)),
        },
    }
}
