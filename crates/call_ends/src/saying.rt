//! Answers as replies, and what is said of a call.

ghost use Rattle.std.specs.Prelude.{◌≡◌, ◌<◌};
ghost use Rattle.outside.specs.Counts.{HasRisen};
ghost use Rattle.call_ends.specs.Calls.{Says};
ghost use Rattle.call_ends.specs.Replies.{IsReplyOf, SaysReply};

use crate::Reply;
use outside::{Sink, write_all};
use std::alloc::AllocError;

const READ_FAULT: &[u8] = b"read fault\n";

const OUT_OF_MEMORY: &[u8] = b"out of memory\n";

/// An answer as a reply.
pub fn reply_of(answer: Result<(u8, Vec<u8>), AllocError>) -> Reply
    ensures { IsReplyOf answer result }
{
    match answer {
        Ok((status, text)) => Reply::Whole { status, text },
        Err(_) => Reply::OutOfMemory,
    }
}

/// Puts the text of a reply, and gives its status, or 4 for a write fault in its place.
pub fn say_reply<K: Sink>(out: &mut K, reply: Reply) -> u8
    ensures said { SaysReply reply (K.written out.old) (K.written out.new) (HasRisen (K.faults out.old) (K.faults out.new)) result }
    ensures counted { K.faults out.old < K.faults out.new → result ≡ 4 }
{
    match reply {
        Reply::Whole { status, text } => say(out, status, &text),
        Reply::ReadFault => say(out, 3, READ_FAULT),
        Reply::OutOfMemory => say(out, 5, OUT_OF_MEMORY),
    }
}

/// Puts the text, and gives the status, or 4 for a write fault in its place.
pub fn say<K: Sink>(out: &mut K, status: u8, text: &[u8]) -> u8
    ensures said { Says (K.written out.old) (K.written out.new) status text.now (HasRisen (K.faults out.old) (K.faults out.new)) result }
    ensures counted { K.faults out.old < K.faults out.new → result ≡ 4 }
{
    match write_all(out, text) {
        Ok(()) => status,
        Err(_) => 4,
    }
}
