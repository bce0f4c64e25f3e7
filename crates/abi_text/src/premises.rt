//! Premises.

ghost use Rattle.std.specs.Prelude.{◌≡◌, ◌++◌, OnOk};
ghost use Rattle.abi_text.specs.Premises.{one_text, many_text, sentence, address_if, addresses, are_told, told_addresses, counted_line, premise_line, each_line, premise_lines};

use abi_lines::{counted, number_of};
use abi_premises::{Assumption, Premise};
use number_text::{push_dec, push_hex};
use std::alloc::AllocError;

const PREMISES: [Premise; 12] = [
    Premise::Stores,
    Premise::Globals,
    Premise::Ecalls,
    Premise::Opaques,
    Premise::Foreigns,
    Premise::Tails,
    Premise::Tables,
    Premise::NoReturn,
    Premise::Stack,
    Premise::Above,
    Premise::Partial,
    Premise::Exits,
];

fn one_text(premise: Premise) -> &'static str
    ensures { result.now ≡ one_text premise }
{
    match premise {
        Premise::Stores => "store at an address that isn't known: it spares saved words",
        Premise::Globals => "store at a fixed address: it spares saved words",
        Premise::Ecalls => "call of the environment: it spares saved words",
        Premise::Opaques => "store by an opaque instruction: it spares saved words",
        Premise::Foreigns => {
            "call of code that isn't in sight: it comes back and keeps the convention"
        }
        Premise::Tails => {
            "tail call of code that isn't in sight: it goes home and keeps the convention"
        }
        Premise::Tables => "jump by a table: it goes to a target that is taken for it",
        Premise::NoReturn => "call that is taken not to return",
        Premise::Stack => "call with sp set by the program itself: its stack is free",
        Premise::Above => "call with sp above its word of the entry: its stack is free",
        Premise::Partial => "point that isn't followed: what is behind it keeps the convention",
        Premise::Exits => "return by another word in ra: nothing is told from there on",
    }
}

fn many_text(premise: Premise) -> &'static str
    ensures { result.now ≡ many_text premise }
{
    match premise {
        Premise::Stores => "stores at addresses that aren't known: they spare saved words",
        Premise::Globals => "stores at fixed addresses: they spare saved words",
        Premise::Ecalls => "calls of the environment: they spare saved words",
        Premise::Opaques => "stores by opaque instructions: they spare saved words",
        Premise::Foreigns => {
            "calls of code that isn't in sight: they come back and keep the convention"
        }
        Premise::Tails => {
            "tail calls of code that isn't in sight: they go home and keep the convention"
        }
        Premise::Tables => "jumps by tables: they go to targets that are taken for them",
        Premise::NoReturn => "calls that are taken not to return",
        Premise::Stack => "calls with sp set by the program itself: their stack is free",
        Premise::Above => "calls with sp above its word of the entry: their stack is free",
        Premise::Partial => {
            "points that aren't followed: what is behind them keeps the convention"
        }
        Premise::Exits => "returns by another word in ra: nothing is told from there on",
    }
}

fn sentence(premise: Premise, count: u64) -> &'static str
    ensures { result.now ≡ sentence premise count }
{
    if count == 1 {
        one_text(premise)
    } else {
        many_text(premise)
    }
}

fn push_address_if(text: &mut Vec<u8>, is: bool, a: u64) -> Result<(), AllocError>
    ensures { OnOk result (text.new.items ≡ text.old.items ++ address_if is a) }
{
    if !is {
        return Ok(());
    }
    text.extend_from_slice(b" ")?;
    push_hex(text, a)
}

fn push_addresses(text: &mut Vec<u8>, n: u64, assumed: &[Assumption]) -> Result<(), AllocError>
    ensures { OnOk result (text.new.items ≡ text.old.items ++ addresses n assumed.now) }
{
    for one in assumed {
        push_address_if(text, number_of(one.premise) == n, one.address)?;
    }
    Ok(())
}

fn push_told_addresses(
    text: &mut Vec<u8>,
    told: bool,
    n: u64,
    assumed: &[Assumption],
) -> Result<(), AllocError>
    ensures { OnOk result (text.new.items ≡ text.old.items ++ told_addresses told n assumed.now) }
{
    if !told {
        return Ok(());
    }
    text.extend_from_slice(b" ")?;
    push_addresses(text, n, assumed)
}

fn are_told(why: bool, count: u64) -> bool
    ensures { result ≡ are_told why count }
{
    why || count < 5
}

fn push_counted(
    text: &mut Vec<u8>,
    why: bool,
    premise: Premise,
    count: u64,
    assumed: &[Assumption],
) -> Result<(), AllocError>
    ensures { OnOk result (text.new.items ≡ text.old.items ++ counted_line why premise count assumed.now) }
{
    if count == 0 {
        return Ok(());
    }
    text.extend_from_slice(b"  ")?;
    push_dec(text, count)?;
    text.extend_from_slice(b" ")?;
    text.extend_from_slice(sentence(premise, count).as_bytes())?;
    push_told_addresses(text, are_told(why, count), number_of(premise), assumed)?;
    text.extend_from_slice(b"\n")
}

fn push_premise(
    text: &mut Vec<u8>,
    why: bool,
    premise: Premise,
    assumed: &[Assumption],
) -> Result<(), AllocError>
    ensures { OnOk result (text.new.items ≡ text.old.items ++ premise_line why premise assumed.now) }
{
    let count = counted(number_of(premise), assumed);
    push_counted(text, why, premise, count, assumed)
}

fn push_each(
    text: &mut Vec<u8>,
    why: bool,
    premises: &[Premise],
    assumed: &[Assumption],
) -> Result<(), AllocError>
    ensures { OnOk result (text.new.items ≡ text.old.items ++ each_line why premises.now assumed.now) }
{
    for premise in premises {
        push_premise(text, why, *premise, assumed)?;
    }
    Ok(())
}

/// Appends a line for each premise, with its count.
#[tactic(auto, unfolding(crate::specs::Premises::premise_lines))]
pub(crate) fn push_premises(
    text: &mut Vec<u8>,
    why: bool,
    assumed: &[Assumption],
) -> Result<(), AllocError>
    ensures { OnOk result (text.new.items ≡ text.old.items ++ premise_lines why assumed.now) }
{
    push_each(text, why, &PREMISES, assumed)
}
