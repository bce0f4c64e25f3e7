//! The type of bases.

ghost use Rattle.std.specs.Prelude.{◌≡◌, ℕ, ◌<◌, ◌≤◌, ◌-◌, ◌*◌, ◌↔◌, List, [], ◌∷◌, IsTrue, Contains, IfOk, OnOk};
ghost use Rattle.std.specs.Int.{w64, trailing_zeros};
ghost use Rattle.word_rows.specs.Rows.{lead, pivot};
ghost use Rattle.row_modules.specs.Bases.{IsLeadingBasis, IsReduced, basis_length, used_positions};
ghost use Rattle.row_modules.specs.Modules.{IsCombination, IsWithin, SameModule};
ghost use Rattle.lead_basis.specs.Inserts.{Adds};
ghost use Rattle.lead_basis.specs.Marks.{Writes};

use crate::multiples::take_multiples;
use crate::place::place;
use crate::reduce::reduce;
use crate::whole::{is_on, look};
use crate::{Memory, Steps};
use std::alloc::Global;
use std::marker::Model;
use std::sync::ledger::Ledger;
use word_rows::Row;

/// A leading-position basis of rows of N words, N from 1 to 512. `whole` isn't 0 at some positions whose unit rows are in
/// the module: a row that is 0 at each other is a member. They are looked for where a row was taken through the basis in
/// vain, unless they were since the module grew (`looked`).
#[derive(Drop)]
pub struct Basis<const N: usize> {
    rows: Vec<Row<N>>,
    whole: Row<N>,
    looked: bool,
}

impl<const N: usize> Model for Basis<N> {
    ghost use Rattle.std.specs.Prelude.{ℕ, List, ◌≤◌};
    ghost use Rattle.row_modules.specs.Bases.{IsLeadingBasis};
    ghost use Rattle.lead_basis.specs.Whole.{HasWhole};

    ghost Value = { List (List ℕ) };

    ghost view = { λ b. b.rows.items };

    ghost invariant = { λ b. (1 ≤ N) × (N ≤ 512) × IsLeadingBasis N b.rows.items × HasWhole N b.rows.items b.whole };
}

impl<const N: usize> Basis<N> {
    /// The basis with no rows, which spans the zero row alone. It takes no memory.
    pub fn new(alloc: Global) -> Basis<N>
        requires some { 1 ≤ N }
        requires within { N ≤ 512 }
        ensures { result ≡ [] }
    {
        Basis {
            rows: Vec::new(alloc),
            whole: Row::zero(),
            looked: false,
        }
    }

    /// The basis of rows that are one.
    pub(crate) fn from_rows(rows: Vec<Row<N>>) -> Basis<N>
        requires some { 1 ≤ N }
        requires within { N ≤ 512 }
        requires basis { IsLeadingBasis N rows.items }
        ensures { result ≡ rows.entry.items }
    {
        Basis {
            rows,
            whole: Row::zero(),
            looked: false,
        }
    }

    /// What every basis keeps. A caller sees a basis as a list alone, so it calls this where it needs these facts.
    pub fn known(&self)
        ensures basis { IsLeadingBasis N self.now }
        ensures some { 1 ≤ N }
        ensures within { N ≤ 512 }
    {
        let _ = &self.rows;
    }

    /// The rows, in order of their leads.
    pub fn rows(&self) -> &[Row<N>]
        ensures { result.now ≡ self.now }
    {
        &self.rows
    }

    /// The rows, in order of their leads, given away.
    pub fn into_rows(self) -> Vec<Row<N>>
        ensures { result.items ≡ self.entry }
    {
        self.rows
    }

    /// Whether a row is a combination of the rows.
    pub fn member(&self, row: &Row<N>) -> bool
        ensures { IsTrue result ↔ IsCombination N (Contains self.now) row.now }
    {
        let mut rest = *row;
        take_multiples(&mut rest, &self.rows);
        rest.lead().is_none()
    }

    /// Adds a row: the module becomes the old one and all multiples of the row. The answer is true exactly where the
    /// module grew. Out of memory, which never comes for a row of the module, the module lies between the two.
    /// The counter rises by at least 1 where the module grew and by 0 where it didn't, by at least the gain in rows, and
    /// never by more than the gain in length.
    pub fn insert<L: Ledger>(&mut self, row: Row<N>, steps: &mut Steps<L>) -> Result<bool, Memory>
        ensures same_module { OnOk result (SameModule N (Contains self.new) (Contains (row.entry ∷ self.old))) }
        ensures grew { IfOk result (λ grew. IsTrue grew ↔ ¬ IsWithin N (Contains self.new) (Contains self.old)) }
        ensures adds { Adds N self.old row.entry self.new result steps.old steps.new }
    {
        let mut marks = Row::zero();
        self.insert_marked(row, &mut marks, steps)
    }

    /// Adds a row, and marks the rows that it writes, by their leads: what is unmarked is a row of the old basis, unchanged, and
    /// was unmarked before. Where the module doesn't grow, the marks stay.
    pub fn insert_marked<L: Ledger>(
        &mut self,
        mut row: Row<N>,
        marks: &mut Row<N>,
        steps: &mut Steps<L>,
    ) -> Result<bool, Memory>
        ensures same_module { OnOk result (SameModule N (Contains self.new) (Contains (row.entry ∷ self.old))) }
        ensures grew { IfOk result (λ grew. IsTrue grew ↔ ¬ IsWithin N (Contains self.new) (Contains self.old)) }
        ensures adds { Adds N self.old row.entry self.new result steps.old steps.new }
        ensures writes { Writes self.old self.new result marks.old marks.new }
    {
        row.known();
        if is_on(&row, &self.whole) {
            return Ok(false);
        }
        let grew = place(&mut self.rows, 0, &mut row, marks, steps)?;
        look(&self.rows, &mut self.whole, &mut self.looked, grew);
        Ok(grew)
    }

    /// The one reduced basis of the module: in the column of each pivot every earlier row has a smaller word. It takes no
    /// memory.
    pub fn reduced(mut self) -> Basis<N>
        ensures same_module { SameModule N (Contains result) (Contains self.entry) }
        ensures reduced { IsReduced result }
        ensures unique { (rows : List (List ℕ)) → IsLeadingBasis N rows → IsReduced rows → SameModule N (Contains rows) (Contains self.entry) → rows ≡ result }
    {
        reduce(&mut self.rows);
        self
    }

    /// The sum of 64 - t over the pivots 2^t: at most 64 for each position at which some row isn't 0.
    pub fn length(&self) -> u64
        ensures sum { result ≡ basis_length self.now }
        ensures bound { result ≤ 64 * used_positions N self.now }
    {
        let mut sum = 0;
        for row in &self.rows {
            sum += pivot_length(row);
        }
        sum
    }
}

/// 64 - t for the pivot 2^t.
fn pivot_length<const N: usize>(row: &Row<N>) -> u64
    ensures small { result ≤ 64 }
    ensures length { lead row.now < N → result ≡ 64 - trailing_zeros w64 (pivot row.now) }
{
    match row.lead() {
        Some(lead) => 64 - u64::from(row.get(lead).trailing_zeros()),
        None => 0,
    }
}
