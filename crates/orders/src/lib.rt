//! Orders: what the arguments after a program's name ask for.
//!
//! [`read_order`] gives the one order that the arguments are, by `specs/Orders.antt`: the first word names the command, and
//! `clap` reads the words behind it. What is no order is [`Order::Usage`]. What an order gets is left to others, and so is
//! what files, lists and registers in it mean. [`read_check`] does the same for the second program, which has one order, by
//! `specs/Checks.antt`.
//!
//! ```text
//! read_order(alloc, &words)? // of the words cert, f, --track=sp: Order::Certify { file: "f", list: "sp" }
//! ```
#![tactic(auto)]

mod checks;
mod command_words;
mod commands;

pub use checks::read_check;
pub use commands::read_order;

/// What the arguments of the second program ask for: a file, the word for the one procedure, if not all are asked for, and
/// whether lines are asked for, or reasons.
#[derive(Clone, Copy, Debug)]
pub struct Check<'a> {
    pub file: &'a str,
    pub entry: Option<&'a str>,
    pub lines: bool,
    pub why: bool,
}

/// What the arguments after the program's name ask for.
#[derive(Clone, Copy, Debug)]
pub enum Order<'a> {
    Usage,
    Analyse {
        file: &'a str,
        list: &'a str,
    },
    Certify {
        file: &'a str,
        list: &'a str,
    },
    ListCode {
        file: &'a str,
    },
    CheckRun {
        file: &'a str,
        report: &'a str,
        steps: u32,
        regs: Option<&'a str>,
    },
    Generate {
        n: u32,
        list: &'a str,
    },
    Upgrade {
        file: &'a str,
        report: &'a str,
    },
    Narrow {
        file: &'a str,
        list: &'a str,
    },
    Refute {
        file: &'a str,
        list: &'a str,
        at: &'a str,
        row: &'a str,
    },
}
