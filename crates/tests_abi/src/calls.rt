//! Calls of the program over a file `f` in memory.

use abi_call::abi_main;
use elf_write::file_of_words;
use outside_fakes::{MemFile, MemFiles, MemSink};
use std::alloc::{AllocError, Global};
use std::test::Fail;

// A call: its words, the code of the file, and the status and the text that are wanted.
struct Call {
    words: &'static str,
    code: &'static [u32],
    status: u8,
    text: &'static str,
}

const RET: u32 = 0x00008067;

// addi sp,sp,-16
const DOWN: u32 = 0xff010113;

const USAGE: &str = "usage:\nabi-check FILE [--entry NAME|ADDRESS] [--lines | --why]\n";

const CALLS: &[Call] = &[
    Call {
        words: "f g",
        code: &[RET],
        status: 2,
        text: USAGE,
    },
    Call {
        words: "--lines --why f",
        code: &[RET],
        status: 2,
        text: USAGE,
    },
    Call {
        words: "--entry=0x10079 f",
        code: &[RET],
        status: 1,
        text: "refused NoEntry 0x10079\n",
    },
    Call {
        words: "f --entry 0x1007c --lines",
        code: &[DOWN, RET],
        status: 0,
        text: "affine-check 1\nproc 0x1007c 0\nsp kept\nra kept\ns0 kept\ns1 kept\ns2 kept\ns3 kept\ns4 kept\ns5 kept\ns6 kept\ns7 kept\ns8 kept\ns9 kept\ns10 kept\ns11 kept\nend 14 0 0 0\n",
    },
    Call {
        words: "absent",
        code: &[RET],
        status: 3,
        text: "read fault\n",
    },
    Call {
        words: "f --lines",
        code: &[RET],
        status: 0,
        text: "affine-check 1\nproc 0x10078 0\nsp kept\nra kept\ns0 kept\ns1 kept\ns2 kept\ns3 kept\ns4 kept\ns5 kept\ns6 kept\ns7 kept\ns8 kept\ns9 kept\ns10 kept\ns11 kept\nend 14 0 0 0\n",
    },
    Call {
        words: "f --lines",
        code: &[DOWN, RET],
        status: 7,
        text: "affine-check 1\nproc 0x10078 16\nsp clobbered 0x10078 return 0x1007c is sp-16\nra kept\ns0 kept\ns1 kept\ns2 kept\ns3 kept\ns4 kept\ns5 kept\ns6 kept\ns7 kept\ns8 kept\ns9 kept\ns10 kept\ns11 kept\nend 13 1 0 0\n",
    },
    Call {
        words: "f --lines",
        code: &[0x0000007f],
        status: 8,
        text: "affine-check 1\nproc 0x10078 0\nsp unknown 0x10078 no-instruction\nra unknown 0x10078 no-instruction\ns0 unknown 0x10078 no-instruction\ns1 unknown 0x10078 no-instruction\ns2 unknown 0x10078 no-instruction\ns3 unknown 0x10078 no-instruction\ns4 unknown 0x10078 no-instruction\ns5 unknown 0x10078 no-instruction\ns6 unknown 0x10078 no-instruction\ns7 unknown 0x10078 no-instruction\ns8 unknown 0x10078 no-instruction\ns9 unknown 0x10078 no-instruction\ns10 unknown 0x10078 no-instruction\ns11 unknown 0x10078 no-instruction\nassumes partial 1\nend 0 0 14 0\n",
    },
];

fn words_of(alloc: Global, words: &str) -> Result<Vec<String>, AllocError> {
    let mut all = Vec::new(alloc);
    for word in words.split(' ') {
        all.push(String::from_str(alloc, word)?)?;
    }
    Ok(all)
}

fn files_of(alloc: Global, code: &[u32]) -> Result<MemFiles, AllocError> {
    let file = MemFile {
        name: String::from_str(alloc, "f")?,
        contents: file_of_words(alloc, code)?,
        faults: 0,
    };
    Ok(MemFiles {
        files: vec![in alloc; file]?,
        piece: 4096,
        fails: vec![in alloc; 0]?,
        calls: 0,
        faults: 0,
    })
}

fn sink(alloc: Global) -> Result<MemSink, Fail> {
    Ok(
        MemSink::with_capacity(alloc, 4096, 4096, Vec::new(alloc))
            .ok()
            .ok_or("memory")?,
    )
}

fn holds(alloc: Global, call: &Call) -> Result<bool, Fail> {
    let words = words_of(alloc, call.words)?;
    let mut files = files_of(alloc, call.code)?;
    let mut out = sink(alloc)?;
    let status = abi_main(alloc, &words, &mut files, &mut out);
    Ok(status == call.status && out.written.as_slice() == call.text.as_bytes())
}

fn all_hold(alloc: Global, calls: &[Call]) -> Result<bool, Fail> {
    for call in calls.iter() {
        if !holds(alloc, call)? {
            return Ok(false);
        }
    }
    Ok(true)
}

#[test]
fn calls(rt: HostRuntime) -> Result<(), Fail> {
    assert!(rt; all_hold(rt.alloc(), CALLS)?);
    Ok(())
}
