//! What there is at a point.

ghost use Rattle.std.specs.Prelude.{◌≡◌, false};
ghost use Rattle.flow_points.specs.Flows.{HasUpper, fetches_of};
ghost use Rattle.flow_points.specs.Sites.{IsSite, auipc_field};

use crate::code_points::{CodePoint, Point, Site};
use crate::flows::{base_of, flow_of, next, prior};
use elf_image::Image;
use refusals::FlowRefusal;
use rv_decode::{Instr, decode};
use rvc_expand::decode_with_length;

/// What there is at a point.
pub fn site_at(image: &Image, point: Point) -> Site
    ensures { IsSite (fetches_of image.now) point result }
{
    image.known();
    let address = point.address;
    let Some(at) = image.code_at(address) else {
        return bad(FlowRefusal::OutsideCode(address));
    };
    let Some(instr) = decode_with_length(at.word, at.length) else {
        return bad(FlowRefusal::NoInstruction(address, at.word));
    };
    let upper = upper_before(image, address, base_of(&instr));
    let next = next(address, at.length);
    let code = match flow_of(image.unit, address, next, upper, &instr) {
        Ok(flow) => Ok(CodePoint {
            point,
            word: at.word,
            length: at.length,
            instr,
            flow,
        }),
        Err(cause) => Err(cause),
    };
    Site {
        code,
        ends_pair: upper.is_some(),
    }
}

// The field of the AUIPC in the four bytes before an address, where its destination is this register and not zero.
fn upper_before(image: &Image, address: u64, register: u8) -> Option<u32>
    ensures { HasUpper (fetches_of image.now) address register result }
{
    if register == 0 {
        return None;
    }
    let word = image.code_word_at(prior(address))?;
    let instr = decode(word)?;
    auipc_field(&instr, register)
}

// The field of an AUIPC with this destination.
fn auipc_field(instr: &Instr, register: u8) -> Option<u32>
    ensures { result ≡ auipc_field instr.now register }
{
    match *instr {
        Instr::Auipc { rd, imm } if rd == register => Some(imm),
        _ => None,
    }
}

// No code, so no second half of a pair.
fn bad(cause: FlowRefusal) -> Site
    ensures code { result.code ≡ Err cause }
    ensures ends_pair { result.ends_pair ≡ false }
{
    Site {
        code: Err(cause),
        ends_pair: false,
    }
}
