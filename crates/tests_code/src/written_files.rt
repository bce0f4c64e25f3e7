//! Headers and small files, byte for byte.

use crate::images::{CODE, SMALL};
use elf_write::{
    FileHeader, SegmentHeader, file_of_code, file_of_words, push_file_header, push_program_header,
};
use std::alloc::Global;

const FILE_HEADER: FileHeader = FileHeader {
    entry: 0x1122334455667788,
    flags: 0x99aabbcc,
    segments: 3,
    sections_at: 0x0102030405060708,
    sections: 0x0a0b,
    names_section: 0x0c0d,
};

const SEGMENT_HEADER: SegmentHeader = SegmentHeader {
    offset: 0x1122334455667788,
    address: 0x0102030405060708,
    stored: 0x090a0b0c0d0e0f10,
    size: 0xa1a2a3a4a5a6a7a8,
    flags: 6,
};

// e_ident; e_type to e_entry; e_phoff, e_shoff; e_flags to e_shstrndx
const FILE_HEADER_BYTES: &[u8] = b"\x7fELF\x02\x01\x01\0\0\0\0\0\0\0\0\0\
\x02\0\xf3\0\x01\0\0\0\x88\x77\x66\x55\x44\x33\x22\x11\
\x40\0\0\0\0\0\0\0\x08\x07\x06\x05\x04\x03\x02\x01\
\xcc\xbb\xaa\x99\x40\0\x38\0\x03\0\x40\0\x0b\x0a\x0d\x0c";

// p_type, p_flags, p_offset; p_vaddr, p_paddr; p_filesz, p_memsz; p_align
const SEGMENT_HEADER_BYTES: &[u8] = b"\x01\0\0\0\x06\0\0\0\x88\x77\x66\x55\x44\x33\x22\x11\
\x08\x07\x06\x05\x04\x03\x02\x01\x08\x07\x06\x05\x04\x03\x02\x01\
\x10\x0f\x0e\x0d\x0c\x0b\x0a\x09\xa8\xa7\xa6\xa5\xa4\xa3\xa2\xa1\
\0\x10\0\0\0\0\0\0";

fn writes_file_header(alloc: Global) -> bool {
    let mut file = Vec::new(alloc);
    push_file_header(&mut file, &FILE_HEADER).is_ok() && file.as_slice() == FILE_HEADER_BYTES
}

fn writes_segment_header(alloc: Global) -> bool {
    let mut file = Vec::new(alloc);
    push_program_header(&mut file, &SEGMENT_HEADER).is_ok()
        && file.as_slice() == SEGMENT_HEADER_BYTES
}

#[test]
fn headers(rt: HostRuntime) {
    assert!(rt; writes_file_header(rt.alloc()));
    assert!(rt; writes_segment_header(rt.alloc()));
}

/// c.li a0,5; c.ebreak
const COMPRESSED: &[u8] = b"\x15\x45\x02\x90";

/// Whether the small file with this code is so long, tells its length and its flags, and ends in the code.
fn is_compressed_file(file: &[u8]) -> bool {
    file.len() == 124
        && file.get(48..52) == Some(b"\x01\0\0\0".as_slice())
        && file.get(96..104) == Some(b"\x7c\0\0\0\0\0\0\0".as_slice())
        && file.get(104..112) == Some(b"\x7c\0\0\0\0\0\0\0".as_slice())
        && file.get(120..) == Some(COMPRESSED)
}

fn writes_small_file(alloc: Global) -> bool {
    match file_of_words(alloc, &CODE) {
        Ok(file) => file.as_slice() == SMALL.as_slice(),
        Err(_) => false,
    }
}

fn writes_compressed_file(alloc: Global) -> bool {
    match file_of_code(alloc, 1, COMPRESSED) {
        Ok(file) => is_compressed_file(&file),
        Err(_) => false,
    }
}

#[test]
fn small_files(rt: HostRuntime) {
    assert!(rt; writes_small_file(rt.alloc()));
    assert!(rt; writes_compressed_file(rt.alloc()));
}
