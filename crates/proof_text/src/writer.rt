//! The writer of proof files. Each function appends one part of the text.

ghost use Rattle.std.specs.Prelude.{◌≡◌, ◌++◌, IfOk, OnOk};
ghost use Rattle.std.specs.List.{flat_map};
ghost use Rattle.proof_text.specs.Text.{word_text, row_text, place_text, head_text, entry_text, proof_text};

use crate::files::{EntryRows, HeadRows, ProofFile};
use crate::rows::{SparseRow, WordAt};
use number_text::{push_dec, push_hex};
use report_text::{push_names, push_points};
use std::alloc::{AllocError, Global};

/// The text of a proof file.
pub fn write_proof(alloc: Global, file: &ProofFile) -> Result<Vec<u8>, AllocError>
    ensures { IfOk result (λ text. text.items ≡ proof_text file.now) }
{
    let names = file.tracked.names.as_slice();
    let mut text = Vec::new(alloc);
    text.extend_from_slice(b"affine-proof 1\ntrack ")?;
    push_names(&mut text, names)?;
    text.extend_from_slice(b"\n")?;
    push_heads(&mut text, file.heads.as_slice())?;
    push_entries(&mut text, file.entries.as_slice())?;
    text.extend_from_slice(b"claims\n")?;
    push_points(&mut text, names, &[], file.claims.as_slice())?;
    text.extend_from_slice(b"end\n")?;
    Ok(text)
}

fn push_heads(text: &mut Vec<u8>, heads: &[HeadRows]) -> Result<(), AllocError>
    ensures { OnOk result (text.new.items ≡ text.old.items ++ flat_map head_text heads.now) }
{
    for head in heads {
        push_head(text, head)?;
    }
    Ok(())
}

fn push_head(text: &mut Vec<u8>, head: &HeadRows) -> Result<(), AllocError>
    ensures { OnOk result (text.new.items ≡ text.old.items ++ head_text head.now) }
{
    text.extend_from_slice(b"head ")?;
    push_hex(text, head.proc_entry)?;
    text.extend_from_slice(b" ")?;
    push_place(text, head.address)?;
    text.extend_from_slice(b"\n")?;
    push_rows(text, head.rows.as_slice())
}

// A point's address, or the word for an exit.
fn push_place(text: &mut Vec<u8>, address: Option<u64>) -> Result<(), AllocError>
    ensures { OnOk result (text.new.items ≡ text.old.items ++ place_text address) }
{
    match address {
        None => text.extend_from_slice(b"exit"),
        Some(address) => push_hex(text, address),
    }
}

fn push_entries(text: &mut Vec<u8>, entries: &[EntryRows]) -> Result<(), AllocError>
    ensures { OnOk result (text.new.items ≡ text.old.items ++ flat_map entry_text entries.now) }
{
    for entry in entries {
        push_entry(text, entry)?;
    }
    Ok(())
}

fn push_entry(text: &mut Vec<u8>, entry: &EntryRows) -> Result<(), AllocError>
    ensures { OnOk result (text.new.items ≡ text.old.items ++ entry_text entry.now) }
{
    text.extend_from_slice(b"entry ")?;
    push_hex(text, entry.proc_entry)?;
    text.extend_from_slice(b"\n")?;
    push_rows(text, entry.rows.as_slice())
}

fn push_rows(text: &mut Vec<u8>, rows: &[SparseRow]) -> Result<(), AllocError>
    ensures { OnOk result (text.new.items ≡ text.old.items ++ flat_map row_text rows.now) }
{
    for row in rows {
        push_row(text, row)?;
    }
    Ok(())
}

fn push_row(text: &mut Vec<u8>, row: &SparseRow) -> Result<(), AllocError>
    ensures { OnOk result (text.new.items ≡ text.old.items ++ row_text row.now) }
{
    text.extend_from_slice(b"row")?;
    push_words(text, row.words.as_slice())?;
    text.extend_from_slice(b"\n")
}

fn push_words(text: &mut Vec<u8>, words: &[WordAt]) -> Result<(), AllocError>
    ensures { OnOk result (text.new.items ≡ text.old.items ++ flat_map word_text words.now) }
{
    for word in words {
        push_word(text, word)?;
    }
    Ok(())
}

fn push_word(text: &mut Vec<u8>, word: &WordAt) -> Result<(), AllocError>
    ensures { OnOk result (text.new.items ≡ text.old.items ++ word_text word.now) }
{
    text.extend_from_slice(b" ")?;
    push_dec(text, u64::from(word.position))?;
    text.extend_from_slice(b":")?;
    push_hex(text, word.word)
}
