//! What the image has at an address.

ghost use Rattle.std.specs.Prelude.{◌≡◌, ◌<◌, is_some, IfSome};
ghost use Rattle.rv_decode.specs.Instructions.{IsWellFormed};
ghost use Rattle.elf_image.specs.Images.{code_at};
ghost use Rattle.entry_tables.specs.Settling.{IsLineAt, IsLined, opaque_at};

use crate::rows::{Line, Point};
use elf_image::Image;
use entry_values::State;
use opaque_words::{Row, opaque_row};
use rvc_expand::decode_with_length;

/// The instruction that the image has at an address.
pub fn line_at(image: &Image, a: u64) -> Option<Line>
    ensures line { IsLineAt image.now a result }
    ensures formed { IfSome result (λ line. IsWellFormed line.instr) }
{
    match image.code_at(a) {
        Some(at) => match decode_with_length(at.word, at.length) {
            Some(instr) => Some(Line {
                instr,
                length: at.length,
            }),
            None => None,
        },
        None => None,
    }
}

/// A point, with the instruction that the image has there.
pub fn lined_point(image: &Image, procedure: u64, address: u64, marked: bool, state: State) -> Point
    ensures lined { IsLined image.now result }
    ensures place { (result.procedure ≡ procedure) × (result.address ≡ address) }
    ensures state { (result.marked ≡ marked) × (result.state ≡ state) }
{
    Point {
        procedure,
        address,
        line: line_at(image, address),
        marked,
        state,
    }
}

/// What is known of the opaque word that the image has at an address.
pub fn opaque_at(image: &Image, a: u64) -> Option<Row>
    ensures row { result ≡ opaque_at image.now a }
    ensures registers { IfSome result (λ row. (row.rd < 32) × (row.base < 32)) }
{
    match image.code_at(a) {
        Some(at) => opaque_row(at.word, at.length),
        None => None,
    }
}

pub fn has_code(image: &Image, a: u64) -> bool
    ensures { result ≡ is_some (code_at image.now a) }
{
    image.code_at(a).is_some()
}
