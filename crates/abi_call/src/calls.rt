//! Calls.

ghost use Rattle.std.specs.Prelude.{◌≡◌, ◌≢◌, ◌<◌, IfErr, IfOk};
ghost use Rattle.std.specs.IoError.{error_kind};
ghost use Rattle.std.specs.Process.{exit_status};
ghost use Rattle.outside.specs.Counts.{HasRisen};
ghost use Rattle.call_ends.specs.Calls.{Says, SaysIn, EndsOver, IsAnswerOver, call, no_memory_text};
ghost use Rattle.call_ends.specs.Replies.{AnswersWith};
ghost use Rattle.abi_answers.specs.Answers.{IsAnswerTo, word_of};
ghost use Rattle.abi_answers.specs.Laws.{AnswersTellOfRuns};
ghost use Rattle.orders.specs.Orders.{texts_of};
ghost use Rattle.orders.specs.Checks.{check_of};
ghost use Rattle.abi_call.specs.Calls.{usage_text, form_of, IsCarriedOut};

use abi_answers::laws::answers_tell_of_runs;
use abi_answers::{Form, answer_to};
use call_ends::{Reply, file_bytes, reply_of, say, say_reply};
use orders::read_check;
use outside::{Files, Sink};
use std::alloc::Global;
use std::io;
use std::io::ErrorKind;
use std::process::ExitCode;

const USAGE: &[u8] = b"usage:\nabi-check FILE [--entry NAME|ADDRESS] [--lines | --why]\n";

/// Reads the file that the arguments name, those after the program's name, puts what is told of its routines into the
/// sink, in the form that is asked for, and gives the exit status.
pub fn abi_main<F: Files, K: Sink>(
    alloc: Global,
    words: &[String],
    files: &mut F,
    out: &mut K,
) -> u8
    ensures carried_out { IsCarriedOut (check_of (texts_of words.now))
        (call F.contents F.faults K.written K.faults files.old files.new out.old out.new) result }
    // Where the sink's count rose, the answer says so.
    ensures counted { K.faults out.old < K.faults out.new → result ≡ 4 }
    // What is told to be kept is kept in each run of the machine that keeps what is assumed.
    ensures runs { AnswersTellOfRuns }
{
    answers_tell_of_runs();
    match read_check(alloc, words) {
        Ok(Some(check)) => check_file(
            alloc,
            files,
            out,
            check.file,
            check.entry,
            form_of(check.lines, check.why),
        ),
        Ok(None) => say_usage(out),
        Err(_) => say_reply(out, Reply::OutOfMemory),
    }
}

/// The same, where the arguments could be had, as an exit status of the program. Where memory was wanting for them, it says
/// so; for any other fault, as an argument that is no UTF-8 text, it says how to call.
pub fn run_with<F: Files, K: Sink>(
    alloc: Global,
    words: io::Result<Vec<String>>,
    files: &mut F,
    out: &mut K,
) -> ExitCode
    ensures given { IfOk words (λ w. IsCarriedOut (check_of (texts_of w.items))
        (call F.contents F.faults K.written K.faults files.old files.new out.old out.new) (exit_status result)) }
    ensures no_memory { IfErr words (λ error. error_kind error ≡ ErrorKind.OutOfMemory → SaysIn
        (call F.contents F.faults K.written K.faults files.old files.new out.old out.new) 5 no_memory_text (exit_status result)) }
    ensures no_words { IfErr words (λ error. error_kind error ≢ ErrorKind.OutOfMemory → SaysIn
        (call F.contents F.faults K.written K.faults files.old files.new out.old out.new) 2 usage_text (exit_status result)) }
    ensures counted { K.faults out.old < K.faults out.new → exit_status result ≡ 4 }
{
    let status = match words {
        Ok(words) => abi_main(alloc, &words, files, out),
        Err(error) if error.kind() == ErrorKind::OutOfMemory => say_reply(out, Reply::OutOfMemory),
        Err(_) => say_usage(out),
    };
    ExitCode::from(status)
}

// The form that is asked for.
fn form_of(lines: bool, why: bool) -> Form
    ensures { result ≡ form_of lines why }
{
    if lines {
        Form::Lines
    } else {
        Form::People(why)
    }
}

fn say_usage<K: Sink>(out: &mut K) -> u8
    ensures said { Says (K.written out.old) (K.written out.new) 2 usage_text (HasRisen (K.faults out.old) (K.faults out.new)) result }
    ensures counted { K.faults out.old < K.faults out.new → result ≡ 4 }
{
    say(out, 2, USAGE)
}

fn check_file<F: Files, K: Sink>(
    alloc: Global,
    files: &mut F,
    out: &mut K,
    file: &str,
    entry: Option<&str>,
    form: Form,
) -> u8
    ensures ends { EndsOver file.now (IsAnswerTo form file.now (word_of entry.entry))
        (call F.contents F.faults K.written K.faults files.old files.new out.old out.new) result }
    ensures counted { K.faults out.old < K.faults out.new → result ≡ 4 }
{
    say_reply(out, reply_to_check(alloc, files, file, entry, form))
}

fn reply_to_check<F: Files>(
    alloc: Global,
    files: &mut F,
    file: &str,
    entry: Option<&str>,
    form: Form,
) -> Reply
    ensures { AnswersWith (IsAnswerOver (F.contents files.old file.now) (IsAnswerTo form file.now (word_of entry.entry)))
        (HasRisen (F.faults files.old file.now) (F.faults files.new file.now)) result }
{
    match file_bytes(alloc, files, file) {
        Ok(bytes) => reply_of(answer_to(alloc, &bytes, file.as_bytes(), form, entry)),
        Err(reply) => reply,
    }
}
