//! Rows of words from their words that aren't 0, and back.

ghost use Rattle.std.specs.Prelude.{◌≡◌, ◌++◌, ◌≤◌, ◌<◌, length, IfOk, OnOk};
ghost use Rattle.proof_text.specs.Sparse.{dense_over, dense, items_of, AreSparseOf, IsSparseOf, ArePlaced};

use crate::rows::{SparseRow, WordAt};
use sqlite_items::Items;
use std::alloc::{AllocError, Global};
use word_rows::Row;

/// The row with these words at their positions, and 0 elsewhere.
pub fn dense<const N: usize>(row: &SparseRow) -> Row<N>
    requires some { 1 ≤ N }
    requires within { N ≤ 512 }
    requires placed { ArePlaced N row.now.words }
    ensures { result ≡ dense N row.now.words }
{
    let mut words = [0; N];
    put_words(&mut words, row.words.as_slice());
    Row::from_words(&words)
}

// Puts the words at their positions.
fn put_words(words: &mut [u64], items: &[WordAt])
    requires { ArePlaced (length words.old) items.now }
    ensures { words.new ≡ dense_over words.old items.now }
{
    for item in items {
        words[item.position as usize] = item.word;
    }
}

/// The rows by their words that aren't 0.
pub fn sparse_rows<const N: usize>(
    alloc: Global,
    rows: &[Row<N>],
) -> Result<Items<SparseRow>, AllocError>
    ensures { IfOk result (λ sparse. AreSparseOf N rows.now sparse) }
{
    let mut sparse = Items::new(alloc);
    for row in rows {
        sparse.push(sparse_row(alloc, row)?)?;
    }
    Ok(sparse)
}

fn sparse_row<const N: usize>(alloc: Global, row: &Row<N>) -> Result<SparseRow, AllocError>
    ensures { IfOk result (λ sparse. IsSparseOf N row.now sparse) }
{
    row.known();
    let mut words = Items::new(alloc);
    for i in 0..N {
        push_word(&mut words, i, row.get(i))?;
    }
    Ok(SparseRow { words })
}

// Appends a word with its position, unless it is 0.
fn push_word(words: &mut Items<WordAt>, i: usize, word: u64) -> Result<(), AllocError>
    requires { i < 512 }
    ensures { OnOk result (words.new ≡ words.old ++ items_of i word) }
{
    if word == 0 {
        return Ok(());
    }
    let position = i as u16;
    words.push(WordAt { position, word })
}
