//! What the words of the second program ask for.

ghost use Rattle.std.specs.Prelude.{◌≡◌, option_map, IfOk, codes, unwrap_or};
ghost use Rattle.std.specs.Str.{bytes_eq};
ghost use Rattle.orders.specs.Orders.{texts_of};
ghost use Rattle.orders.specs.OrdersRead.{value_read};
ghost use Rattle.orders.specs.Checks.{check_of, held_check};

use crate::Check;
use crate::command_words::{given_value, parse_check, value_of};
use clap::ArgMatches;
use std::alloc::{AllocError, Global};

/// What the arguments after the program's name ask for, if they are the words of a check.
pub fn read_check(alloc: Global, words: &[String]) -> Result<Option<Check<'_>>, AllocError>
    ensures { IfOk result (λ check. option_map held_check check ≡ check_of (texts_of words.now)) }
{
    let Some(matches) = parse_check(alloc, "abi-check", words)? else {
        return Ok(None);
    };
    let check = Check {
        file: value_of(&matches, "file"),
        entry: given_value(&matches, "entry"),
        lines: is_set(&matches, "lines"),
        why: is_set(&matches, "why"),
    };
    Ok(if check.lines && check.why {
        None
    } else {
        Some(check)
    })
}

fn is_set(matches: &ArgMatches<'_>, name: &str) -> bool
    ensures { result ≡ bytes_eq (value_read matches.now name.now) (codes "true") }
{
    value_of(matches, name) == "true"
}
