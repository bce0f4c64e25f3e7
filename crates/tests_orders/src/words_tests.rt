//! What words are as an order.

use number_text::push_dec;
use orders::{Order, read_order};
use std::alloc::{AllocError, Global};
use std::test::Fail;

// Words, with `|` between them, and the order that they are.
const ORDERS: [(&str, &str); 54] = [
    ("", "usage"),
    ("frob", "usage"),
    ("help", "usage"),
    ("--help", "usage"),
    ("Analyse|f|--track|a0", "usage"),
    ("analyse|f|--track|a0", "analyse f a0"),
    ("analyse|--track|a0|f", "analyse f a0"),
    ("analyse|f|--track=a0", "analyse f a0"),
    ("analyse|--track=a0|f", "analyse f a0"),
    ("analyse|f|--track=a0=a1", "analyse f a0=a1"),
    ("analyse|f|--track=-a0", "analyse f -a0"),
    ("analyse|f|--track|-", "analyse f -"),
    ("analyse|f|--track|", "analyse f "),
    ("analyse|f|--track=", "analyse f "),
    ("analyse||--track|a0", "analyse  a0"),
    ("analyse|--track|a0|--|-f", "analyse -f a0"),
    ("analyse|--|f|--track|a0", "usage"),
    ("analyse|f|--track|-a0", "usage"),
    ("analyse|f|--track|--", "usage"),
    ("analyse|f|--track", "usage"),
    ("analyse|f|--trac|a0", "usage"),
    ("analyse|f|--track|a0|--track|a0", "usage"),
    ("analyse|f|--track|a0|g", "usage"),
    ("analyse|f|a0", "usage"),
    ("analyse|f", "usage"),
    ("analyse|--track|a0", "usage"),
    ("cert|f|--track|sp,ra", "cert f sp,ra"),
    ("cert|--track=sp|f", "cert f sp"),
    ("cert|f|--track|sp|-h", "usage"),
    ("cert|f|--track|sp|--help", "usage"),
    ("cert|f|--track|sp|-V", "usage"),
    ("cert|f|--track|sp|--version", "usage"),
    ("cert|f", "usage"),
    ("list|f", "list f"),
    ("list|-", "list -"),
    ("list|help", "list help"),
    ("list|", "list "),
    ("list|--|-x", "list -x"),
    ("list|--|--", "list --"),
    ("list", "usage"),
    ("list|-x", "usage"),
    ("list|-1", "usage"),
    ("list|f|g", "usage"),
    ("list|f|--track|a0", "usage"),
    ("gen|1|--track|a0", "gen 1 a0"),
    ("gen|--track=|101", "gen 101 "),
    ("gen|0|--track|a0", "gen 0 a0"),
    ("gen|1000000000|--track|a0", "gen 1000000000 a0"),
    ("gen|1000000001|--track|a0", "usage"),
    ("gen|007|--track|a0", "usage"),
    ("gen|00|--track|a0", "usage"),
    ("gen|+1|--track|a0", "usage"),
    ("gen|--track|a0|--|-1", "usage"),
    ("gen||--track|a0", "usage"),
];

// The same of words that name a report, or a point and a row.
const REPORT_ORDERS: [(&str, &str); 34] = [
    ("run|f|r|--steps|7", "run f r 7"),
    ("run|f|r|--steps|7|--regs|a0=1", "run f r 7 a0=1"),
    ("run|--regs=a0=1|f|--steps=0|r", "run f r 0 a0=1"),
    ("run|f|r|--steps|7|--regs|", "run f r 7 "),
    ("run|f|r|--steps|7|--regs|zero=1", "run f r 7 zero=1"),
    ("run|f|--steps|7|--|-r", "run f -r 7"),
    ("run|f|r|--steps|1000000000", "run f r 1000000000"),
    ("run|f|r|--steps|1000000001", "usage"),
    ("run|f|r|--steps|07", "usage"),
    ("run|f|r|--steps|-1", "usage"),
    ("run|f|r|--steps|0x7", "usage"),
    ("run|f|r|--steps|", "usage"),
    ("run|f|r|--steps|7|--steps|7", "usage"),
    ("run|f|r|--steps|7|--regs|a0=1|--regs|a1=1", "usage"),
    ("run|f|r|--steps|7|--regs", "usage"),
    ("run|f|r", "usage"),
    ("run|f|--steps|7", "usage"),
    ("run|f|r|s|--steps|7", "usage"),
    ("upgrade|f|r", "upgrade f r"),
    ("upgrade|f|--|-r", "upgrade f -r"),
    ("narrow|f|--track|a0", "narrow f a0"),
    ("narrow|f", "usage"),
    (
        "refute|f|--track|a0|--at|p|--row|1*a0 -5",
        "refute f a0 p 1*a0 -5",
    ),
    ("refute|--row=-1|--at=|--track=a0|--|-f", "refute -f a0  -1"),
    ("refute|f|--at|p|--row|r|--track|", "refute f  p r"),
    ("refute|f|--track|a0|--at|p|--row|-1*a0", "usage"),
    ("refute|f|--track|a0|--at|p", "usage"),
    ("refute|f|--track|a0|--row|r", "usage"),
    ("refute|f|--at|p|--row|r", "usage"),
    ("refute|--track|a0|--at|p|--row|r", "usage"),
    ("refute|f|--track|a0|--at|p|--at|p|--row|r", "usage"),
    ("refute|f|r|--track|a0|--at|p|--row|r", "usage"),
    ("upgrade|f", "usage"),
    ("upgrade|f|r|--track|a0", "usage"),
];

// Appends the words with spaces between them.
fn push_words(text: &mut Vec<u8>, words: &[&str]) -> Result<(), AllocError> {
    for (i, word) in words.iter().enumerate() {
        if i > 0 {
            text.extend_from_slice(b" ")?;
        }
        text.extend_from_slice(word.as_bytes())?;
    }
    Ok(())
}

// Appends a space and the number.
fn push_number(text: &mut Vec<u8>, n: u32) -> Result<(), AllocError> {
    text.extend_from_slice(b" ")?;
    push_dec(text, u64::from(n))
}

fn push_order(text: &mut Vec<u8>, order: Order) -> Result<(), AllocError> {
    match order {
        Order::Usage => push_words(text, &["usage"]),
        Order::Analyse { file, list } => push_words(text, &["analyse", file, list]),
        Order::Certify { file, list } => push_words(text, &["cert", file, list]),
        Order::ListCode { file } => push_words(text, &["list", file]),
        Order::CheckRun {
            file,
            report,
            steps,
            regs,
        } => push_run(text, file, report, steps, regs),
        Order::Generate { n, list } => {
            push_words(text, &["gen"])?;
            push_number(text, n)?;
            push_words(text, &["", list])
        }
        Order::Upgrade { file, report } => push_words(text, &["upgrade", file, report]),
        Order::Narrow { file, list } => push_words(text, &["narrow", file, list]),
        Order::Refute {
            file,
            list,
            at,
            row,
        } => push_words(text, &["refute", file, list, at, row]),
    }
}

fn push_run(
    text: &mut Vec<u8>,
    file: &str,
    report: &str,
    steps: u32,
    regs: Option<&str>,
) -> Result<(), AllocError> {
    push_words(text, &["run", file, report])?;
    push_number(text, steps)?;
    match regs {
        Some(regs) => push_words(text, &["", regs]),
        None => Ok(()),
    }
}

// Whether the words of the line are this order.
fn is_order(alloc: Global, line: &str, meant: &str) -> Result<bool, AllocError> {
    let mut words = Vec::new(alloc);
    for word in line.split('|') {
        words.push(String::from_str(alloc, word)?)?;
    }
    let mut text = Vec::new(alloc);
    push_order(&mut text, read_order(alloc, &words)?)?;
    Ok(text.as_slice() == meant.as_bytes())
}

fn are_orders(alloc: Global, lines: &[(&str, &str)]) -> Result<bool, AllocError> {
    for (line, meant) in lines.iter() {
        if !is_order(alloc, line, meant)? {
            return Ok(false);
        }
    }
    Ok(true)
}

#[test]
fn words_are_orders(rt: HostRuntime) -> Result<(), Fail> {
    assert!(rt; are_orders(rt.alloc(), &ORDERS)?);
    Ok(())
}

#[test]
fn words_with_reports_are_orders(rt: HostRuntime) -> Result<(), Fail> {
    assert!(rt; are_orders(rt.alloc(), &REPORT_ORDERS)?);
    Ok(())
}
