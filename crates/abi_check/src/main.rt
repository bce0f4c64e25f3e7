//! What each routine of an ELF file does to sp, ra and s0 to s11, with no list of names.
//!
//! `abi_check FILE` prints, for each procedure and each of these registers, whether it is kept, clobbered, unknown or
//! never given back, and what is assumed of runs. `abi_main` takes the arguments after the program's name, files to read
//! and a sink for the text, and gives the exit status: its clauses say which text the sink gains, why each status comes,
//! and what is so of each run of the machine. `run_with` ends with that status; `main` calls it over the system's
//! arguments, files and standard output. Both stand in `abi_call`.
//!
//! ```text
//! abi_check saved_registers.elf
//! ```
#![tactic(auto)]

pub use abi_call::abi_main;
use abi_call::run_with;
use outside::{DiskFiles, StdSink, behind_first};
use std::process::ExitCode;
use std::{env, io};

fn main(rt: HostRuntime) -> ExitCode {
    let mut files = DiskFiles::new(rt.alloc(), &rt);
    let mut out = StdSink::new(&rt);
    run_with(rt.alloc(), behind_first(words(&rt)), &mut files, &mut out)
}

// The words of the call, the program's name first.
fn words(rt: &HostRuntime) -> io::Result<Vec<String>> {
    let words = env::args(rt)?.collect(rt.alloc())?;
    Ok(words)
}
