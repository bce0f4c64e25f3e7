//! The affine-relation analyser: its commands, and the call that carries what they promise.
//!
//! `analyse FILE --track LIST` prints, for each instruction of an ELF file that can be reached, rows that
//! generate all affine relations modulo 2^64 that hold there between 1 to 16 registers and frame slots
//! and a constant, and which registers each procedure leaves as they were. `cert FILE --track LIST` prints
//! the latter alone. `list FILE` prints the instructions themselves. `run FILE REPORT --steps N` makes so many
//! steps of the machine and prints the first at which it breaks what the report says or the discipline of
//! calls. `gen N --track LIST` analyses a file that is made from a number, and prints how much was found.
//! `upgrade FILE REPORT` prints a report without certificates with them. `affine_main` takes the arguments
//! after the program's name, files to read and a sink for the text, and gives the exit status: its
//! clause says which text the sink gains, and why each status comes. `run_with` ends with that status;
//! `main` calls it over the system's arguments, files and standard output. Both stand in `top_call`.
//!
//! ```text
//! analyser_main analyse one_register.elf --track a0
//! ```
#![tactic(auto)]

use outside::{DiskFiles, StdSink, behind_first};
use std::process::ExitCode;
use std::{env, io};
pub use top_call::affine_main;
use top_call::run_with;

fn main(rt: HostRuntime) -> ExitCode {
    let mut files = DiskFiles::new(rt.alloc(), &rt);
    let mut out = StdSink::new(&rt);
    run_with(rt.alloc(), behind_first(words(&rt)), &mut files, &mut out)
}

// The words of the call, the program's name first.
fn words(rt: &HostRuntime) -> io::Result<Vec<String>> {
    let words = env::args(rt)?.collect(rt.alloc())?;
    Ok(words)
}
