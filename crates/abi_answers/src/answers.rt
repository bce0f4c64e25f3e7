//! Answers.

ghost use Rattle.std.specs.Prelude.{◌≡◌, ◌≢◌, ◌≤◌, ◌^◌, true, length, Some, IfOk};
ghost use Rattle.elf_image.specs.Refusals.{refusal_of};
ghost use Rattle.entry_tables.specs.Settling.{AreLined};
ghost use Rattle.abi_verdicts.specs.Ends.{ends_in, are_told};
ghost use Rattle.abi_premises.specs.Assumed.{assumed_in};
ghost use Rattle.abi_answers.specs.Answers.{word_of, AreFound, IsTable, IsChosen, HasNoEntry, roots_in, status_of, form_text, IsNoTableLine, no_entry_line, IsAnswer, IsAnswerTo};

use crate::entries::entry_of;
use crate::forms::Form;
use crate::roots::roots_in;
use abi_lines::{Tally, tally_of, write_lines};
use abi_premises::{Assumption, assumptions};
use abi_routines::{Routine, routines};
use abi_text::write_text;
use abi_verdicts::{End, ending, ends};
use elf_image::{ElfRefusal, Image, read_image};
use entry_search::{LIMITS, NoTable, tabulate};
use entry_tables::Rows;
use entry_values::Memory;
use refusal_lines::{elf_line, value_line};
use sqlite_items::Items;
use std::alloc::{AllocError, Global};

const SAVED: [u8; 14] = [2, 1, 8, 9, 18, 19, 20, 21, 22, 23, 24, 25, 26, 27];

/// What is answered of a file with these bytes, as lines for scripts.
pub fn answer_to_check(alloc: Global, bytes: &[u8]) -> Result<(u8, Vec<u8>), AllocError>
    requires { length bytes.now ≤ 2 ^ 24 }
    ensures { IfOk result (λ answer. IsAnswer bytes.now answer.0 answer.1.items) }
{
    answer_to(alloc, bytes, b"", Form::Lines, None)
}

/// What is answered of a file of this name with these bytes, in this form: of the procedure that the word for an entry
/// chooses and of what it calls, or of all that are asked for, where there is none.
pub fn answer_to(
    alloc: Global,
    bytes: &[u8],
    file: &[u8],
    form: Form,
    entry: Option<&str>,
) -> Result<(u8, Vec<u8>), AllocError>
    requires { length bytes.now ≤ 2 ^ 24 }
    ensures { IfOk result (λ answer. IsAnswerTo form file.now (word_of entry.entry) bytes.now answer.0 answer.1.items) }
{
    match read_image(alloc, bytes) {
        Ok(image) => answer_by(alloc, bytes, file, form, entry, &image),
        Err(ElfRefusal::Memory) => Err(AllocError),
        Err(refusal) => no_image(alloc, bytes, file, form, entry, refusal),
    }
}

fn no_image(
    alloc: Global,
    bytes: &[u8],
    file: &[u8],
    form: Form,
    entry: Option<&str>,
    refusal: ElfRefusal,
) -> Result<(u8, Vec<u8>), AllocError>
    requires short { length bytes.now ≤ 2 ^ 24 }
    requires cause { refusal_of bytes.now ≡ Some refusal }
    ensures { IfOk result (λ answer. IsAnswerTo form file.now (word_of entry.entry) bytes.now answer.0 answer.1.items) }
{
    let _ = bytes;
    let _ = file;
    let _ = entry;
    Ok((1, elf_line(alloc, refusal)?))
}

fn answer_by(
    alloc: Global,
    bytes: &[u8],
    file: &[u8],
    form: Form,
    entry: Option<&str>,
    image: &Image,
) -> Result<(u8, Vec<u8>), AllocError>
    requires short { length bytes.now ≤ 2 ^ 24 }
    requires is_image { image.now.file ≡ bytes.now }
    ensures { IfOk result (λ answer. IsAnswerTo form file.now (word_of entry.entry) bytes.now answer.0 answer.1.items) }
{
    match entry {
        Some(word) => match entry_of(image, word) {
            Some(a) => answer_of(alloc, bytes, file, form, entry, image, Some(a)),
            None => no_entry(alloc, bytes, file, form, word, image),
        },
        None => answer_of(alloc, bytes, file, form, entry, image, None),
    }
}

fn no_entry(
    alloc: Global,
    bytes: &[u8],
    file: &[u8],
    form: Form,
    word: &str,
    image: &Image,
) -> Result<(u8, Vec<u8>), AllocError>
    requires short { length bytes.now ≤ 2 ^ 24 }
    requires is_image { image.now.file ≡ bytes.now }
    requires none { HasNoEntry image.now word.now }
    ensures { IfOk result (λ answer. IsAnswerTo form file.now (Some word.now) bytes.now answer.0 answer.1.items) }
{
    let _ = bytes;
    let _ = file;
    let _ = image;
    Ok((1, no_entry_line(alloc, word)?))
}

fn no_entry_line(alloc: Global, word: &str) -> Result<Vec<u8>, AllocError>
    ensures { IfOk result (λ line. line.items ≡ no_entry_line word.now) }
{
    let mut line = Vec::from_slice(alloc, b"refused NoEntry ")?;
    line.extend_from_slice(word.as_bytes())?;
    line.extend_from_slice(b"\n")?;
    Ok(line)
}

fn answer_of(
    alloc: Global,
    bytes: &[u8],
    file: &[u8],
    form: Form,
    entry: Option<&str>,
    image: &Image,
    root: Option<u64>,
) -> Result<(u8, Vec<u8>), AllocError>
    requires short { length bytes.now ≤ 2 ^ 24 }
    requires is_image { image.now.file ≡ bytes.now }
    requires chosen { IsChosen image.now (word_of entry) root }
    ensures { IfOk result (λ answer. IsAnswerTo form file.now (word_of entry.entry) bytes.now answer.0 answer.1.items) }
{
    match table_of(alloc, image, root) {
        Ok(rows) => told(alloc, bytes, file, form, entry, image, root, &rows),
        Err(why) => no_table(alloc, bytes, file, form, entry, why),
    }
}

fn table_of(alloc: Global, image: &Image, root: Option<u64>) -> Result<Rows, NoTable>
    ensures table { IfOk result (IsTable image.now (roots_in image.now root)) }
    ensures lined { IfOk result (λ rows. AreLined image.now rows.points) }
{
    match roots_in(alloc, image, root) {
        Ok(roots) => tabulate(
            alloc,
            image,
            roots.as_slice(),
            Items::new(alloc),
            Items::new(alloc),
            LIMITS,
        ),
        Err(_) => Err(NoTable::Memory),
    }
}

fn no_table(
    alloc: Global,
    bytes: &[u8],
    file: &[u8],
    form: Form,
    entry: Option<&str>,
    why: NoTable,
) -> Result<(u8, Vec<u8>), AllocError>
    requires { length bytes.now ≤ 2 ^ 24 }
    ensures { IfOk result (λ answer. IsAnswerTo form file.now (word_of entry.entry) bytes.now answer.0 answer.1.items) }
{
    let _ = bytes;
    let _ = file;
    let _ = entry;
    Ok((1, no_table_line(alloc, why)?))
}

fn no_table_line(alloc: Global, why: NoTable) -> Result<Vec<u8>, AllocError>
    ensures { IfOk result (λ line. IsNoTableLine line.items) }
{
    match why {
        NoTable::Rows => value_line(alloc, b"TooManyRows", 262_144),
        NoTable::Procedures => value_line(alloc, b"TooManyProcedures", 16_384),
        NoTable::Unsettled => value_line(alloc, b"Unsettled", 67_108_864),
        NoTable::Memory => Err(AllocError),
    }
}

fn told(
    alloc: Global,
    bytes: &[u8],
    file: &[u8],
    form: Form,
    entry: Option<&str>,
    image: &Image,
    root: Option<u64>,
    rows: &Rows,
) -> Result<(u8, Vec<u8>), AllocError>
    requires short { length bytes.now ≤ 2 ^ 24 }
    requires is_image { image.now.file ≡ bytes.now }
    requires chosen { IsChosen image.now (word_of entry) root }
    requires table { IsTable image.now (roots_in image.now root) rows.now }
    requires lined { AreLined image.now rows.now.points }
    ensures { IfOk result (λ answer. IsAnswerTo form file.now (word_of entry.entry) bytes.now answer.0 answer.1.items) }
{
    match found(alloc, image, rows) {
        Ok(all) => told_by(
            alloc,
            bytes,
            file,
            form,
            entry,
            image,
            root,
            rows,
            all.as_slice(),
        ),
        Err(_) => Err(AllocError),
    }
}

fn told_by(
    alloc: Global,
    bytes: &[u8],
    file: &[u8],
    form: Form,
    entry: Option<&str>,
    image: &Image,
    root: Option<u64>,
    rows: &Rows,
    routines: &[Routine],
) -> Result<(u8, Vec<u8>), AllocError>
    requires short { length bytes.now ≤ 2 ^ 24 }
    requires is_image { image.now.file ≡ bytes.now }
    requires chosen { IsChosen image.now (word_of entry) root }
    requires table { IsTable image.now (roots_in image.now root) rows.now }
    requires lined { AreLined image.now rows.now.points }
    requires found { AreFound image.now rows.now routines.now }
    ensures { IfOk result (λ answer. IsAnswerTo form file.now (word_of entry.entry) bytes.now answer.0 answer.1.items) }
{
    let _ = bytes;
    let _ = entry;
    let text = text_of(alloc, form, file, image, rows, routines)?;
    Ok((status_of(tally_of(routines)), text))
}

// What is told of each procedure.
fn found(alloc: Global, image: &Image, rows: &Rows) -> Result<Items<Routine>, Memory>
    requires { AreLined image.now rows.now.points }
    ensures { IfOk result (AreFound image.now rows.now) }
{
    match ends(alloc, image, rows) {
        Ok(all) => found_by(alloc, image, rows, all.as_slice()),
        Err(memory) => Err(memory),
    }
}

fn found_by(
    alloc: Global,
    image: &Image,
    rows: &Rows,
    ends: &[End],
) -> Result<Items<Routine>, Memory>
    requires lined { AreLined image.now rows.now.points }
    requires ends { ends.now ≡ ends_in image.now rows.now rows.now.points }
    ensures { IfOk result (AreFound image.now rows.now) }
{
    match ending(alloc, ends) {
        Ok(ending) => found_among(alloc, image, rows, ends, ending.as_slice()),
        Err(memory) => Err(memory),
    }
}

fn found_among(
    alloc: Global,
    image: &Image,
    rows: &Rows,
    ends: &[End],
    ending: &[u64],
) -> Result<Items<Routine>, Memory>
    requires lined { AreLined image.now rows.now.points }
    requires ends { ends.now ≡ ends_in image.now rows.now rows.now.points }
    requires told { are_told ending.now ends.now ≡ true }
    ensures { IfOk result (AreFound image.now rows.now) }
{
    match routines(alloc, image, rows, ends, ending, &SAVED) {
        Ok(all) => Ok(all),
        Err(memory) => Err(memory),
    }
}

fn text_of(
    alloc: Global,
    form: Form,
    file: &[u8],
    image: &Image,
    rows: &Rows,
    routines: &[Routine],
) -> Result<Vec<u8>, AllocError>
    requires { AreLined image.now rows.now.points }
    ensures { IfOk result (λ text. text.items ≡ form_text form file.now image.now rows.now routines.now (assumed_in image.now rows.now rows.now.points)) }
{
    match assumptions(alloc, image, rows) {
        Ok(assumed) => form_of(alloc, form, file, image, rows, routines, assumed.as_slice()),
        Err(_) => Err(AllocError),
    }
}

fn form_of(
    alloc: Global,
    form: Form,
    file: &[u8],
    image: &Image,
    rows: &Rows,
    routines: &[Routine],
    assumed: &[Assumption],
) -> Result<Vec<u8>, AllocError>
    requires { AreLined image.now rows.now.points }
    ensures { IfOk result (λ text. text.items ≡ form_text form file.now image.now rows.now routines.now assumed.now) }
{
    match form {
        Form::Lines => write_lines(alloc, image.symbols.as_slice(), routines, assumed),
        Form::People(why) => write_text(alloc, file, image, rows, routines, assumed, why),
    }
}

fn status_of(tally: Tally) -> u8
    ensures { result ≡ status_of tally }
{
    if tally.clobbered > 0 {
        7
    } else if tally.unknown > 0 {
        8
    } else {
        0
    }
}
