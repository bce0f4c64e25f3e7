//! A file whose second procedure has a name.

use crate::calls::gets;
use crate::code_tests::{RECURSION, RECURSION_CODE};
use elf_write::{
    FileHeader, SegmentHeader, push_file_header, push_number, push_program_header, push_words,
};
use std::alloc::{AllocError, Global};
use std::test::Fail;

// The headers of its sections: none; the symbol table; its names. The words of eight bytes are sh_type above
// sh_name, sh_flags, sh_addr, sh_offset, sh_size, sh_link, sh_addralign and sh_entsize.
const SECTIONS: [u64; 24] = [
    0,
    0,
    0,
    0,
    0,
    0,
    0,
    0,
    0x2_0000_0000,
    0,
    0,
    160,
    48,
    2,
    0,
    24,
    0x3_0000_0000,
    0,
    0,
    208,
    3,
    0,
    0,
    0,
];

// The file with the symbol `f`, of this type, at 0x10080.
fn named_file(alloc: Global, st_info: u8) -> Result<Vec<u8>, AllocError> {
    let mut bytes = Vec::new(alloc);
    push_headers(&mut bytes)?;
    push_words(&mut bytes, &RECURSION_CODE)?;
    bytes.extend_from_slice(&[0; 28])?;
    bytes.extend_from_slice(&[1, 0, 0, 0, st_info, 0, 1, 0])?;
    bytes.extend_from_slice(b"\x80\0\x01\0\0\0\0\0\0\0\0\0\0\0\0\0\0f\0\0\0\0\0\0")?;
    for field in SECTIONS.iter() {
        push_number(&mut bytes, 8, *field)?;
    }
    Ok(bytes)
}

fn push_headers(bytes: &mut Vec<u8>) -> Result<(), AllocError> {
    let header = FileHeader {
        entry: 0x10078,
        flags: 0,
        segments: 1,
        sections_at: 216,
        sections: 3,
        names_section: 0,
    };
    let segment = SegmentHeader {
        offset: 0,
        address: 0x10000,
        stored: 156,
        size: 156,
        flags: 5,
    };
    push_file_header(bytes, &header)?;
    push_program_header(bytes, &segment)
}

#[test]
fn a_symbol_names_a_procedure(rt: HostRuntime) -> Result<(), Fail> {
    let alloc = rt.alloc();
    let order = "analyse f --track sp,ra,f:-8";
    assert!(rt;
        gets(
            alloc,
            order,
            named_file(alloc, 0x12)?,
            0,
            RECURSION.as_bytes()
        )?
    );
    // No function has this name: STT_OBJECT.
    assert!(rt;
        gets(
            alloc,
            order,
            named_file(alloc, 0x11)?,
            1,
            b"refused UnknownName 3\n"
        )?
    );
    Ok(())
}
