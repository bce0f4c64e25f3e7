//! A small file that is cut off or changed in one place, its image, and its symbols.

use elf_image::{ElfRefusal, Image, Segment, Symbol, fetch_length, read_image};
use elf_write::{
    FileHeader, SegmentHeader, push_file_header, push_number, push_program_header, push_words,
};
use std::alloc::{AllocError, Global};

/// One segment at 0x10000 with the whole file, and the code `addi a0,zero,5; ebreak` at 0x10078. A line is
/// e_ident; e_type to e_entry; e_phoff, e_shoff; e_flags to e_shstrndx; p_type to p_vaddr; p_paddr, p_filesz;
/// p_memsz, p_align; the code.
pub(crate) const SMALL: &[u8; 128] = b"\x7fELF\x02\x01\x01\0\0\0\0\0\0\0\0\0\
\x02\0\xf3\0\x01\0\0\0\x78\0\x01\0\0\0\0\0\
\x40\0\0\0\0\0\0\0\0\0\0\0\0\0\0\0\
\0\0\0\0\x40\0\x38\0\x01\0\0\0\0\0\0\0\
\x01\0\0\0\x05\0\0\0\0\0\0\0\0\0\0\0\0\0\x01\0\0\0\0\0\
\0\0\x01\0\0\0\0\0\x80\0\0\0\0\0\0\0\
\x80\0\0\0\0\0\0\0\0\x10\0\0\0\0\0\0\
\x13\x05\x50\0\x73\0\x10\0";

pub(crate) const CODE: [u32; 2] = [0x00500513, 0x00100073];

const FILE_HEADER: FileHeader = FileHeader {
    entry: 0x10078,
    flags: 0,
    segments: 1,
    sections_at: 0,
    sections: 0,
    names_section: 0,
};

const SEGMENT_HEADER: SegmentHeader = SegmentHeader {
    offset: 0,
    address: 0x10000,
    stored: 128,
    size: 128,
    flags: 5,
};

/// Puts other bytes at one place.
fn put(bytes: &mut [u8], at: usize, change: &[u8]) {
    if at <= bytes.len() && change.len() <= bytes.len() - at {
        bytes[at..at + change.len()].copy_from_slice(change);
    }
}

/// The small file with other bytes at one place.
fn changed(alloc: Global, at: usize, change: &[u8]) -> Result<Vec<u8>, AllocError> {
    let mut bytes = Vec::from_slice(alloc, SMALL)?;
    put(&mut bytes, at, change);
    Ok(bytes)
}

fn is_refused(alloc: Global, bytes: &[u8], refusal: ElfRefusal) -> bool {
    match read_image(alloc, bytes) {
        Ok(_) => false,
        Err(found) => found == refusal,
    }
}

/// Why the first bytes of the small file, so many, are refused.
fn cut_refusal(n: usize) -> ElfRefusal {
    let length = n as u64;
    if n < 64 {
        ElfRefusal::Short {
            length,
            offset: length,
        }
    } else if n < 120 {
        ElfRefusal::BadHeaderTable { offset: 32 }
    } else {
        ElfRefusal::BadSegment { offset: 64 }
    }
}

fn cut_files_are_refused(alloc: Global) -> bool {
    for n in 0..SMALL.len() {
        if !is_refused(alloc, &SMALL[..n], cut_refusal(n)) {
            return false;
        }
    }
    true
}

const NO_CODE: ElfRefusal = ElfRefusal::NoCode {
    entry: 0x10078,
    offset: 24,
};

/// Changes of the small file, each a place and the bytes there, and why the file is refused.
const CHANGES: [(usize, &[u8], ElfRefusal); 18] = [
    (3, b"f", ElfRefusal::NotElf { offset: 0 }),
    (4, &[1], ElfRefusal::NotClass64 { byte: 1, offset: 4 }),
    (5, &[2], ElfRefusal::NotLittle { byte: 2, offset: 5 }),
    (
        16,
        &[3],
        ElfRefusal::NotExec {
            e_type: 3,
            offset: 16,
        },
    ),
    (
        18,
        &[62],
        ElfRefusal::NotRiscv {
            e_machine: 62,
            offset: 18,
        },
    ),
    (
        24,
        &[0x7a],
        ElfRefusal::NoCode {
            entry: 0x1007a,
            offset: 24,
        },
    ),
    (32, &[0xff; 8], ElfRefusal::BadHeaderTable { offset: 32 }),
    (48, &[9], ElfRefusal::Rve { offset: 48 }),
    (54, &[55], ElfRefusal::BadHeaderTable { offset: 54 }),
    (56, &[0xff, 0xff], ElfRefusal::BadHeaderTable { offset: 32 }),
    (56, &[0], NO_CODE),
    (64, &[2], ElfRefusal::Dynamic { offset: 64 }),
    (64, &[3], ElfRefusal::Dynamic { offset: 64 }),
    (68, &[6], NO_CODE),
    (
        80,
        &[0xf8, 0xff, 0xff, 0xff, 0xff, 0xff, 0xff, 0xff],
        ElfRefusal::BadSegment { offset: 64 },
    ),
    (96, &[0xff; 8], ElfRefusal::BadSegment { offset: 64 }),
    (96, &[0; 16], NO_CODE),
    (104, &[127], ElfRefusal::BadSegment { offset: 64 }),
];

fn change_is_refused(alloc: Global, at: usize, change: &[u8], refusal: ElfRefusal) -> bool {
    match changed(alloc, at, change) {
        Ok(file) => is_refused(alloc, &file, refusal),
        Err(_) => false,
    }
}

fn changes_are_refused(alloc: Global) -> bool {
    for (at, change, refusal) in CHANGES.iter() {
        if !change_is_refused(alloc, *at, change, *refusal) {
            return false;
        }
    }
    true
}

/// The small file with its program header so many times.
fn repeated(alloc: Global, segments: u16) -> Result<Vec<u8>, AllocError> {
    let header = FileHeader {
        segments,
        ..FILE_HEADER
    };
    let mut file = Vec::new(alloc);
    push_file_header(&mut file, &header)?;
    for _ in 0..segments {
        push_program_header(&mut file, &SEGMENT_HEADER)?;
    }
    push_words(&mut file, &CODE)?;
    Ok(file)
}

const MANY: ElfRefusal = ElfRefusal::TooManySegments {
    limit: 64,
    offset: 64 + 64 * 56,
};

const REPEATED: [(u16, ElfRefusal); 3] = [
    (2, ElfRefusal::Overlap { offset: 120 }),
    (64, ElfRefusal::Overlap { offset: 120 }),
    (65, MANY),
];

fn repeated_is_refused(alloc: Global, segments: u16, refusal: ElfRefusal) -> bool {
    match repeated(alloc, segments) {
        Ok(file) => is_refused(alloc, &file, refusal),
        Err(_) => false,
    }
}

fn repeated_are_refused(alloc: Global) -> bool {
    for (segments, refusal) in REPEATED.iter() {
        if !repeated_is_refused(alloc, *segments, *refusal) {
            return false;
        }
    }
    true
}

fn one_is_accepted(alloc: Global) -> bool {
    match repeated(alloc, 1) {
        Ok(file) => read_image(alloc, &file).is_ok(),
        Err(_) => false,
    }
}

#[test]
fn the_first_condition_that_holds_is_answered(rt: HostRuntime) {
    let alloc = rt.alloc();
    assert!(rt; cut_files_are_refused(alloc));
    assert!(rt; changes_are_refused(alloc));
    assert!(rt; repeated_are_refused(alloc) && one_is_accepted(alloc));
}

const SEGMENT: Segment = Segment {
    address: 0x10000,
    size: 136,
    offset: 0,
    stored: 128,
    executable: true,
};

fn is_loaded(image: &Image) -> bool {
    image.entry == 0x10078
        && image.segments.as_slice() == [SEGMENT].as_slice()
        && image.symbols.len() == 0
        && image.unit == 4
}

const BYTES: [(u64, Option<u8>); 7] = [
    (0xffff, None),
    (0x10000, Some(0x7f)),
    (0x1007e, Some(0x10)),
    (0x10080, Some(0)),
    (0x10087, Some(0)),
    (0x10088, None),
    (u64::MAX, None),
];

fn has_bytes(image: &Image) -> bool {
    for (address, byte) in BYTES.iter() {
        if image.byte_at(*address) != *byte {
            return false;
        }
    }
    true
}

const WORDS: [(u64, Option<u32>); 7] = [
    (0xfffe, None),
    (0x10078, Some(0x0050_0513)),
    (0x10079, Some(0x7300_5005)),
    (0x1007c, Some(0x0010_0073)),
    (0x10084, Some(0)),
    (0x10085, None),
    (u64::MAX, None),
];

fn has_words(image: &Image) -> bool {
    for (address, word) in WORDS.iter() {
        if image.code_word_at(*address) != *word {
            return false;
        }
    }
    true
}

/// Whether these words are fetched, each with its length.
fn has_fetches(image: &Image, fetches: &[(u64, Option<(u32, u8)>)]) -> bool {
    for (address, fetch) in fetches {
        let same = match (image.code_at(*address), *fetch) {
            (Some(fetched), Some((word, length))) => {
                fetched.word == word && fetched.length == length
            }
            (None, None) => true,
            _ => false,
        };
        if !same {
            return false;
        }
    }
    true
}

const FETCHES: [(u64, Option<(u32, u8)>); 3] = [
    (0x10078, Some((0x0050_0513, 4))),
    (0x1007a, None),
    (0x10088, None),
];

fn image_of(alloc: Global, file: &[u8]) -> Option<Image> {
    match read_image(alloc, file) {
        Ok(image) => Some(image),
        Err(_) => None,
    }
}

fn image_with(alloc: Global, at: usize, change: &[u8]) -> Option<Image> {
    match changed(alloc, at, change) {
        Ok(file) => image_of(alloc, &file),
        Err(_) => None,
    }
}

fn loads(alloc: Global) -> bool {
    // p_memsz is 136.
    match image_with(alloc, 104, &[136]) {
        Some(image) => {
            is_loaded(&image)
                && has_bytes(&image)
                && has_words(&image)
                && has_fetches(&image, &FETCHES)
        }
        None => false,
    }
}

#[test]
fn bytes_are_loaded_and_the_rest_is_zero(rt: HostRuntime) {
    assert!(rt; loads(rt.alloc()));
}

const FETCHES_OF_BOTH_LENGTHS: [(u64, Option<(u32, u8)>); 6] = [
    (0x10078, Some((0x0050_0513, 4))),
    (0x10079, None),
    (0x1007a, Some((0x0050, 2))),
    (0x1007c, Some((0x0010_0073, 4))),
    (0x1007e, Some((0x0010, 2))),
    (0x10080, None),
];

fn loads_compressed(alloc: Global) -> bool {
    match image_with(alloc, 48, &[1]) {
        Some(image) => image.unit == 2 && has_fetches(&image, &FETCHES_OF_BOTH_LENGTHS),
        None => false,
    }
}

#[test]
fn code_may_be_compressed(rt: HostRuntime) {
    assert!(rt; fetch_length(2, 0x15) == 2 && fetch_length(2, 0x13) == 4);
    assert!(rt; loads_compressed(rt.alloc()));
}

/// The lowest byte of the entry, the flags, and whether there is an image: the two last bytes of a file with
/// compressed code, and one before.
const ENTRIES: [(u8, u8, bool); 5] = [
    (0x7e, 1, true),
    (0x7a, 1, true),
    (0x79, 1, false),
    (0x7e, 0, false),
    (0x7c, 0, true),
];

fn is_entered(alloc: Global, entry: u8, flags: u8) -> bool {
    match changed(alloc, 24, &[entry]) {
        Ok(mut file) => {
            put(&mut file, 48, &[flags]);
            read_image(alloc, &file).is_ok()
        }
        Err(_) => false,
    }
}

fn entries_need_fetches(alloc: Global) -> bool {
    for (entry, flags, accepted) in ENTRIES.iter() {
        if is_entered(alloc, *entry, *flags) != *accepted {
            return false;
        }
    }
    true
}

#[test]
fn an_entry_needs_a_fetch(rt: HostRuntime) {
    assert!(rt; entries_need_fetches(rt.alloc()));
}

// The texts of the string table: none, `f`, `g`, `1x`, `.a$_Z9`, and `h` with no zero byte behind it.
const STRINGS: &[u8; 16] = b"\0f\0g\01x\0.a$_Z9\0h";

// The entries: st_name, st_info, st_shndx, st_value.
const SYMBOLS: [(u32, u8, u16, u64); 10] = [
    (0, 0, 0, 0),
    (1, 0x12, 1, 0x10078), // serves
    (1, 0x02, 1, 0x1007c), // serves
    (3, 0x11, 1, 0x10078), // an object
    (3, 0x12, 0, 0x10078), // undefined
    (5, 0x12, 1, 0x10078), // begins with a digit
    (0, 0x12, 1, 0x10078), // has no name
    (16, 0x12, 1, 0x10078), // its name is outside the string table
    (15, 0x12, 1, 0x10078), // its name has no end
    (8, 0xf2, 0xffff, 7), // serves
];

const SERVING: [(&[u8], u64); 3] = [(b"f", 0x10078), (b"f", 0x1007c), (b".a$_Z9", 7)];

/// Appends the entry of a symbol.
pub(crate) fn push_symbol(
    file: &mut Vec<u8>,
    symbol: (u32, u8, u16, u64),
) -> Result<(), AllocError> {
    let (st_name, st_info, st_shndx, st_value) = symbol;
    push_number(file, 4, u64::from(st_name))?;
    push_number(file, 2, u64::from(st_info))?;
    push_number(file, 2, u64::from(st_shndx))?;
    push_number(file, 8, st_value)?;
    push_number(file, 8, 0)
}

/// Appends the header of a section: sh_type, sh_offset, sh_size, sh_link and sh_entsize.
pub(crate) fn push_section(file: &mut Vec<u8>, fields: [u64; 5]) -> Result<(), AllocError> {
    let [sh_type, sh_offset, sh_size, sh_link, sh_entsize] = fields;
    for field in [
        sh_type << 32,
        0,
        0,
        sh_offset,
        sh_size,
        sh_link,
        0,
        sh_entsize,
    ]
    .iter()
    {
        push_number(file, 8, *field)?;
    }
    Ok(())
}

// Behind the code of the small file a string table at 128, a symbol table at 144 and section headers at 384.
fn push_sections(file: &mut Vec<u8>) -> Result<(), AllocError> {
    file.extend_from_slice(STRINGS)?;
    for symbol in SYMBOLS.iter() {
        push_symbol(file, *symbol)?;
    }
    push_section(file, [0; 5])?;
    push_section(file, [2, 144, 240, 2, 24])?;
    push_section(file, [3, 128, 16, 0, 0])
}

fn file_with_symbols(alloc: Global) -> Result<Vec<u8>, AllocError> {
    let header = FileHeader {
        sections_at: 384,
        sections: 3,
        ..FILE_HEADER
    };
    let mut file = Vec::new(alloc);
    push_file_header(&mut file, &header)?;
    push_program_header(&mut file, &SEGMENT_HEADER)?;
    push_words(&mut file, &CODE)?;
    push_sections(&mut file)?;
    Ok(file)
}

fn are_serving(symbols: &[Symbol]) -> bool {
    for (symbol, (name, value)) in symbols.iter().zip(SERVING.iter()) {
        if symbol.name.as_slice() != *name || symbol.value != *value {
            return false;
        }
    }
    symbols.len() == SERVING.len()
}

/// The image of the file with symbols, with another byte at one place.
fn image_with_symbols(alloc: Global, at: usize, byte: u8) -> Option<Image> {
    match file_with_symbols(alloc) {
        Ok(mut file) => {
            put(&mut file, at, &[byte]);
            image_of(alloc, &file)
        }
        Err(_) => None,
    }
}

fn some_serve(alloc: Global) -> bool {
    match image_with_symbols(alloc, 0, 0x7f) {
        Some(image) => are_serving(image.symbols.as_slice()),
        None => false,
    }
}

#[test]
fn three_of_ten_serve(rt: HostRuntime) {
    assert!(rt; some_serve(rt.alloc()));
}

// What makes the symbols fewer: an offset in the file, a byte to be put there, and how many are left.
const FEWER: [(usize, u8, usize); 9] = [
    (58, 63, 0), // e_shentsize
    (60, 4, 0), // e_shnum, behind the file
    (60, 2, 0), // e_shnum, without the string table
    (452, 1, 0), // sh_type of the symbol table
    (473, 2, 0), // sh_offset of the symbol table, too near to the file's end
    (480, 239, 2), // sh_size of the symbol table, with a part of the last entry
    (488, 3, 0), // sh_link of the symbol table
    (504, 23, 0), // sh_entsize of the symbol table
    (547, 2, 0), // sh_size of the string table
];

fn leaves(alloc: Global, at: usize, byte: u8, left: usize) -> bool {
    match image_with_symbols(alloc, at, byte) {
        Some(image) => image.symbols.len() == left,
        None => false,
    }
}

fn changes_leave_fewer(alloc: Global) -> bool {
    for (at, byte, left) in FEWER.iter() {
        if !leaves(alloc, *at, *byte, *left) {
            return false;
        }
    }
    true
}

#[test]
fn a_table_that_cannot_be_read_has_none(rt: HostRuntime) {
    assert!(rt; changes_leave_fewer(rt.alloc()));
}
