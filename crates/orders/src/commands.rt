//! The order that arguments are.

ghost use Rattle.std.specs.Prelude.{◌≡◌, ◌∷◌, IfOk, codes};
ghost use Rattle.orders.specs.Orders.{texts_of, order_of, count_of, has_zeros, HasFewSteps};
ghost use Rattle.orders.specs.OrdersRead.{order_in};

use crate::Order;
use crate::command_words::{
    given_value, parse_file, parse_refute, parse_report, parse_run, parse_track, value_of,
};
use numeral_read::{begins_with, number_of};
use std::alloc::{AllocError, Global};

/// The greatest number in an order.
const MOST_COUNT: u64 = 1_000_000_000;

/// The order that the arguments are.
pub fn read_order(alloc: Global, words: &[String]) -> Result<Order<'_>, AllocError>
    ensures order { IfOk result (λ order. order_in order ≡ order_of (texts_of words.now)) }
    // A run makes no more steps than the greatest number.
    ensures steps { IfOk result (λ order. HasFewSteps (order_in order)) }
{
    let [command, words @ ..] = words else {
        return Ok(Order::Usage);
    };
    order_named(alloc, command.as_str(), words)
}

// The order of a command's name and the words behind it.
fn order_named<'a>(
    alloc: Global,
    command: &str,
    words: &'a [String],
) -> Result<Order<'a>, AllocError>
    ensures { IfOk result (λ order. order_in order ≡ order_of (command.now ∷ texts_of words.now)) }
{
    match command {
        "analyse" => analyse_order(alloc, words),
        "cert" => certify_order(alloc, words),
        "list" => list_order(alloc, words),
        "gen" => generate_order(alloc, words),
        "run" => run_order(alloc, words),
        "upgrade" => upgrade_order(alloc, words),
        "narrow" => narrow_order(alloc, words),
        "refute" => refute_order(alloc, words),
        _ => Ok(Order::Usage),
    }
}

fn analyse_order<'a>(alloc: Global, words: &'a [String]) -> Result<Order<'a>, AllocError>
    ensures { IfOk result (λ order. order_in order ≡ order_of (codes "analyse" ∷ texts_of words.now)) }
{
    Ok(match parse_track(alloc, "analyse", "file", words)? {
        Some(matches) => Order::Analyse {
            file: value_of(&matches, "file"),
            list: value_of(&matches, "track"),
        },
        None => Order::Usage,
    })
}

fn certify_order<'a>(alloc: Global, words: &'a [String]) -> Result<Order<'a>, AllocError>
    ensures { IfOk result (λ order. order_in order ≡ order_of (codes "cert" ∷ texts_of words.now)) }
{
    Ok(match parse_track(alloc, "cert", "file", words)? {
        Some(matches) => Order::Certify {
            file: value_of(&matches, "file"),
            list: value_of(&matches, "track"),
        },
        None => Order::Usage,
    })
}

fn list_order<'a>(alloc: Global, words: &'a [String]) -> Result<Order<'a>, AllocError>
    ensures { IfOk result (λ order. order_in order ≡ order_of (codes "list" ∷ texts_of words.now)) }
{
    Ok(match parse_file(alloc, "list", words)? {
        Some(matches) => Order::ListCode {
            file: value_of(&matches, "file"),
        },
        None => Order::Usage,
    })
}

fn generate_order<'a>(alloc: Global, words: &'a [String]) -> Result<Order<'a>, AllocError>
    ensures { IfOk result (λ order. order_in order ≡ order_of (codes "gen" ∷ texts_of words.now)) }
{
    let Some(matches) = parse_track(alloc, "gen", "n", words)? else {
        return Ok(Order::Usage);
    };
    Ok(match count_of(value_of(&matches, "n")) {
        Some(n) => Order::Generate {
            n,
            list: value_of(&matches, "track"),
        },
        None => Order::Usage,
    })
}

fn run_order<'a>(alloc: Global, words: &'a [String]) -> Result<Order<'a>, AllocError>
    ensures { IfOk result (λ order. order_in order ≡ order_of (codes "run" ∷ texts_of words.now)) }
{
    let Some(matches) = parse_run(alloc, "run", words)? else {
        return Ok(Order::Usage);
    };
    Ok(match count_of(value_of(&matches, "steps")) {
        Some(steps) => Order::CheckRun {
            file: value_of(&matches, "file"),
            report: value_of(&matches, "report"),
            steps,
            regs: given_value(&matches, "regs"),
        },
        None => Order::Usage,
    })
}

fn upgrade_order<'a>(alloc: Global, words: &'a [String]) -> Result<Order<'a>, AllocError>
    ensures { IfOk result (λ order. order_in order ≡ order_of (codes "upgrade" ∷ texts_of words.now)) }
{
    Ok(match parse_report(alloc, "upgrade", words)? {
        Some(matches) => Order::Upgrade {
            file: value_of(&matches, "file"),
            report: value_of(&matches, "report"),
        },
        None => Order::Usage,
    })
}

fn narrow_order<'a>(alloc: Global, words: &'a [String]) -> Result<Order<'a>, AllocError>
    ensures { IfOk result (λ order. order_in order ≡ order_of (codes "narrow" ∷ texts_of words.now)) }
{
    Ok(match parse_track(alloc, "narrow", "file", words)? {
        Some(matches) => Order::Narrow {
            file: value_of(&matches, "file"),
            list: value_of(&matches, "track"),
        },
        None => Order::Usage,
    })
}

fn refute_order<'a>(alloc: Global, words: &'a [String]) -> Result<Order<'a>, AllocError>
    ensures { IfOk result (λ order. order_in order ≡ order_of (codes "refute" ∷ texts_of words.now)) }
{
    Ok(match parse_refute(alloc, "refute", words)? {
        Some(matches) => Order::Refute {
            file: value_of(&matches, "file"),
            list: value_of(&matches, "track"),
            at: value_of(&matches, "at"),
            row: value_of(&matches, "row"),
        },
        None => Order::Usage,
    })
}

// The number that digits without zeros in front write, where it isn't above the greatest.
fn count_of(text: &str) -> Option<u32>
    ensures { result ≡ count_of text.now }
{
    if has_zeros(text) {
        return None;
    }
    let Some(n) = number_of(text, 10) else {
        return None;
    };
    if n <= MOST_COUNT {
        Some(n as u32)
    } else {
        None
    }
}

fn has_zeros(text: &str) -> bool
    ensures { result ≡ has_zeros text.now }
{
    text.len() > 1 && begins_with(text, b'0')
}
