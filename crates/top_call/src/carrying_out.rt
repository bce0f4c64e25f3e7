//! Orders that are carried out.

ghost use Rattle.std.specs.Prelude.{◌≡◌, ◌≢◌, ◌<◌, ℕ, List, None, map, replicate, option_map, ◌≤◌, IfErr, IfOk, IfSome};
ghost use Rattle.std.specs.IoError.{error_kind};
ghost use Rattle.std.specs.Process.{exit_status};
ghost use Rattle.run_answers.specs.Answers.{four_kinds};
ghost use Rattle.report_text.specs.declared.reports.Report.{Report};
ghost use Rattle.analyser_core.specs.MachineRuns.{TellsOfRuns};
ghost use Rattle.analyser_core.specs.Reports.{IsReportOver};
ghost use Rattle.analyser_core.specs.declared.cert_line.CertLine.{CertLine};
ghost use Rattle.outside.specs.Counts.{HasRisen};
ghost use Rattle.orders.specs.Orders.{texts_of, order_of, HasFewSteps};
ghost use Rattle.orders.specs.OrdersRead.{order_in};
ghost use Rattle.call_ends.specs.Calls.{Says, SaysIn, call, no_memory_text};
ghost use Rattle.top_call.specs.Answers.{IsAskedAt, IsCarriedOut, IsRefuteOrder, IsRunOrder, usage_text};
ghost use Rattle.top_call.specs.Completeness.{IsUnhindered, IsDone};

use crate::file_orders::{
    reply_to_analyse, reply_to_cert, reply_to_list, reply_to_narrow, reply_to_refute,
};
use crate::report_orders::{reply_to_run, reply_to_upgrade};
use analyser_core::reports_tell_of_runs;
use call_ends::{Reply, reply_of, say, say_reply};
use flow_points::Point;
use order_answers::answer_to_gen;
use orders::{Order, read_order};
use outside::{Files, Sink};
use row_read::{read_point, row_shape};
use run_watch::Watch;
use start_registers::start_of;
use std::alloc::Global;
use std::io;
use std::io::ErrorKind;
use std::process::ExitCode;

const USAGE: &[u8] =
    b"usage:\nanalyse FILE --track LIST\ncert FILE --track LIST\nlist FILE\nrun FILE REPORT --steps N [--regs R]\ngen N --track LIST\nupgrade FILE REPORT\nnarrow FILE --track LIST\nrefute FILE --track LIST --at POINT --row ROW\n";

/// Carries out the order of the arguments, those after the program's name: reads the file that it
/// names, puts its one text into the sink, and gives the exit status. A run is checked under these four
/// watches.
pub fn affine_main<F: Files, K: Sink>(
    alloc: Global,
    words: &[String],
    files: &mut F,
    out: &mut K,
    watches: Vec<Box<dyn Watch>>,
) -> u8
    requires kinds { map (λ watch. kind_of watch) watches.items ≡ four_kinds }
    requires fresh { map (λ watch. state watch) watches.items ≡ replicate 4 None }
    ensures carried_out { IsCarriedOut (order_of (texts_of words.now))
        (call F.contents F.faults K.written K.faults files.old files.new out.old out.new) result }
    // Where the sink's count rose, the answer says so.
    ensures counted { K.faults out.old < K.faults out.new → result ≡ 4 }
    // Where nothing refuses what the order needs, it is done.
    ensures completes { IsUnhindered (order_of (texts_of words.now)) (call F.contents F.faults K.written K.faults files.old files.new out.old out.new)
        → IsDone (order_of (texts_of words.now)) (call F.contents F.faults K.written K.faults files.old files.new out.old out.new) result }
    // What a report says of each run of the machine that keeps the discipline.
    ensures runs { (bytes list : List ℕ) (report : Report) (certs : List CertLine)
        → IsReportOver bytes list report certs → TellsOfRuns bytes list report certs }
{
    reports_tell_of_runs();
    match read_order(alloc, words) {
        Ok(order) => carry_out(alloc, order, files, out, Some(watches)),
        Err(_) => say_reply(out, Reply::OutOfMemory),
    }
}

/// Carries out the order of the arguments. A run is checked under four watches that have found nothing.
pub fn run<F: Files, K: Sink>(alloc: Global, words: &[String], files: &mut F, out: &mut K) -> u8
    ensures carried_out { IsCarriedOut (order_of (texts_of words.now))
        (call F.contents F.faults K.written K.faults files.old files.new out.old out.new) result }
    ensures counted { K.faults out.old < K.faults out.new → result ≡ 4 }
{
    match read_order(alloc, words) {
        Ok(order) => carry_out(alloc, order, files, out, None),
        Err(_) => say_reply(out, Reply::OutOfMemory),
    }
}

/// Carries out the order of the arguments, where they could be had, and ends with its status. Where
/// memory was wanting for them, it says so; for any other fault, as an argument that is no UTF-8 text, it
/// says how an order is given.
pub fn run_with<F: Files, K: Sink>(
    alloc: Global,
    words: io::Result<Vec<String>>,
    files: &mut F,
    out: &mut K,
) -> ExitCode
    ensures given { IfOk words (λ w. IsCarriedOut (order_of (texts_of w.items))
        (call F.contents F.faults K.written K.faults files.old files.new out.old out.new) (exit_status result)) }
    // Where the arguments couldn't be had, the call says why: memory was wanting, or they are none.
    ensures no_memory { IfErr words (λ error. error_kind error ≡ ErrorKind.OutOfMemory → SaysIn
        (call F.contents F.faults K.written K.faults files.old files.new out.old out.new) 5 no_memory_text (exit_status result)) }
    ensures no_words { IfErr words (λ error. error_kind error ≢ ErrorKind.OutOfMemory → SaysIn
        (call F.contents F.faults K.written K.faults files.old files.new out.old out.new) 2 usage_text (exit_status result)) }
    ensures counted { K.faults out.old < K.faults out.new → exit_status result ≡ 4 }
{
    let status = match words {
        Ok(words) => run(alloc, &words, files, out),
        Err(error) if error.kind() == ErrorKind::OutOfMemory => say_reply(out, Reply::OutOfMemory),
        Err(_) => say_usage(out),
    };
    ExitCode::from(status)
}

// Says how an order is given.
fn say_usage<K: Sink>(out: &mut K) -> u8
    ensures said { Says (K.written out.old) (K.written out.new) 2 usage_text (HasRisen (K.faults out.old) (K.faults out.new)) result }
    ensures counted { K.faults out.old < K.faults out.new → result ≡ 4 }
{
    say(out, 2, USAGE)
}

// Carries out an order. Without watches, those of a run are made for it.
fn carry_out<F: Files, K: Sink>(
    alloc: Global,
    order: Order<'_>,
    files: &mut F,
    out: &mut K,
    watches: Option<Vec<Box<dyn Watch>>>,
) -> u8
    requires steps { HasFewSteps (order_in order) }
    requires kinds { IfSome watches (λ w. map (λ watch. kind_of watch) w.items ≡ four_kinds) }
    requires fresh { IfSome watches (λ w. map (λ watch. state watch) w.items ≡ replicate 4 None) }
    ensures carried_out { IsCarriedOut (order_in order.entry)
        (call F.contents F.faults K.written K.faults files.old files.new out.old out.new) result }
    ensures counted { K.faults out.old < K.faults out.new → result ≡ 4 }
{
    match order {
        Order::Usage => say(out, 2, USAGE),
        Order::Analyse { file, list } => say_reply(out, reply_to_analyse(alloc, files, file, list)),
        Order::Certify { file, list } => say_reply(out, reply_to_cert(alloc, files, file, list)),
        Order::ListCode { file } => say_reply(out, reply_to_list(alloc, files, file)),
        Order::CheckRun {
            file,
            report,
            steps,
            regs,
        } => check_run(alloc, files, out, file, report, steps, regs, watches),
        Order::Generate { n, list } => say_reply(out, reply_of(answer_to_gen(alloc, n, list))),
        Order::Upgrade { file, report } => {
            say_reply(out, reply_to_upgrade(alloc, files, file, report))
        }
        Order::Narrow { file, list } => say_reply(out, reply_to_narrow(alloc, files, file, list)),
        Order::Refute {
            file,
            list,
            at,
            row,
        } => ask_row(alloc, files, out, file, list, at, row),
    }
}

// Checks a run, where the registers are a list of registers.
fn check_run<F: Files, K: Sink>(
    alloc: Global,
    files: &mut F,
    out: &mut K,
    file: &str,
    report: &str,
    steps: u32,
    regs: Option<&str>,
    watches: Option<Vec<Box<dyn Watch>>>,
) -> u8
    requires steps { steps ≤ 1000000000 }
    requires kinds { IfSome watches (λ w. map (λ watch. kind_of watch) w.items ≡ four_kinds) }
    requires fresh { IfSome watches (λ w. map (λ watch. state watch) w.items ≡ replicate 4 None) }
    ensures carried_out { IsRunOrder file.now report.now steps (option_map (λ r. r.now) regs.entry)
        (call F.contents F.faults K.written K.faults files.old files.new out.old out.new) result }
    ensures counted { K.faults out.old < K.faults out.new → result ≡ 4 }
{
    match start_of(alloc, regs) {
        Ok(Some(start)) => say_reply(
            out,
            reply_to_run(alloc, files, file, report, steps, start, watches),
        ),
        Ok(None) => say(out, 2, USAGE),
        Err(_) => say_reply(out, Reply::OutOfMemory),
    }
}

// Asks whether a row holds, where the texts are those of a point and of a row.
fn ask_row<F: Files, K: Sink>(
    alloc: Global,
    files: &mut F,
    out: &mut K,
    file: &str,
    list: &str,
    at: &str,
    row: &str,
) -> u8
    ensures carried_out { IsRefuteOrder file.now list.now at.now row.now
        (call F.contents F.faults K.written K.faults files.old files.new out.old out.new) result }
    ensures counted { K.faults out.old < K.faults out.new → result ≡ 4 }
{
    match asked_point(at, row) {
        Some(point) => say_reply(out, reply_to_refute(alloc, files, file, list, point, row)),
        None => say(out, 2, USAGE),
    }
}

// The point that a text tells, where the other is one of a row.
fn asked_point(at: &str, row: &str) -> Option<Point>
    ensures { IsAskedAt at.now row.now result }
{
    let Some((proc_entry, address)) = read_point(at) else {
        return None;
    };
    if row_shape(row) {
        Some(Point {
            proc_entry,
            address,
        })
    } else {
        None
    }
}
