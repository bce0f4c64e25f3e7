//! The type of bases at nodes.

ghost use Rattle.std.specs.Prelude.{◌≡◌, ◌<◌, ◌≤◌, [], ◌∷◌, All, length, IfOk, OnErr, MatchOption};
ghost use Rattle.row_modules.specs.Bases.{IsLeadingBasis};
ghost use Rattle.row_engine.specs.States.{rows_at, begin, with_queued};
ghost use Rattle.row_engine.specs.Growth.{Offered, Takes};
ghost use Rattle.row_engine.specs.Turns.{Clears};

use crate::changed::changed_rows;
use crate::empty::{empty_bases, empty_marks};
use crate::take::take;
use lead_basis::{Basis, Memory, Steps};
use sqlite_items::Items;
use std::alloc::Global;
use std::marker::Model;
use std::sync::ledger::Ledger;
use word_rows::Row;

/// For each node, by its number, a basis of rows of N words. The rows that are still to be pushed are marked by their leads,
/// and the nodes that have such rows are queued.
#[derive(Drop)]
pub struct Nodes<const N: usize> {
    bases: Vec<Basis<N>>,
    marks: Vec<Row<N>>,
    queue: Items<u32>,
}

impl<const N: usize> Model for Nodes<N> {
    ghost use Rattle.std.specs.Prelude.{ℕ, List, ◌≤◌};
    ghost use Rattle.row_engine.specs.States.{State, state, AreNodes};

    ghost Value = { State };

    ghost view = { λ s. state s.bases.items s.marks.items s.queue };

    ghost invariant = { λ s. (1 ≤ N) × (N ≤ 512) × AreNodes N (state s.bases.items s.marks.items s.queue) };
}

impl<const N: usize> Nodes<N> {
    /// So many nodes whose bases have no rows.
    pub fn new(alloc: Global, count: u32) -> Result<Nodes<N>, Memory>
        requires some { 1 ≤ N }
        requires within { N ≤ 512 }
        ensures { IfOk result (λ nodes. nodes ≡ begin N count) }
    {
        let bases = empty_bases(alloc, count)?;
        let marks = empty_marks(alloc, count)?;
        Ok(Nodes {
            bases,
            marks,
            queue: Items::new(alloc),
        })
    }

    /// What all nodes keep. A caller sees them as lists alone, so it calls this where it needs these facts.
    pub fn known(&self)
        ensures leading { All (IsLeadingBasis N) self.now.bases }
        ensures marked { length self.now.marks ≡ length self.now.bases }
        ensures some { 1 ≤ N }
        ensures within { N ≤ 512 }
    {
        let _ = &self.bases;
    }

    /// The rows of a node, in order of their leads.
    pub fn rows(&self, node: u32) -> &[Row<N>]
        requires { node < length self.now.bases }
        ensures { result.now ≡ rows_at self.now node }
    {
        self.bases[node as usize].rows()
    }

    /// Offers a row to a node.
    pub fn take<L: Ledger>(
        &mut self,
        to: u32,
        row: &Row<N>,
        steps: &mut Steps<L>,
    ) -> Result<(), Memory>
        requires { to < length self.old.bases }
        ensures { Takes N (Offered N to (row.now ∷ [])) self.old self.new result steps.old steps.new }
    {
        take(
            &mut self.bases,
            &mut self.marks,
            &mut self.queue,
            to,
            row,
            steps,
        )
    }

    /// Offers rows to a node, in turn.
    pub fn offer<L: Ledger>(
        &mut self,
        to: u32,
        rows: &[Row<N>],
        steps: &mut Steps<L>,
    ) -> Result<(), Memory>
        requires { to < length self.old.bases }
        ensures { Takes N (Offered N to rows.now) self.old self.new result steps.old steps.new }
    {
        self.known();
        for row in rows {
            self.take(to, row, steps)?;
        }
        Ok(())
    }

    /// Takes a node from the queue.
    pub(crate) fn next(&mut self) -> Option<u32>
        ensures { MatchOption result ((self.old.queue ≡ []) × (self.new ≡ self.old)) (λ node. self.old ≡ with_queued self.new node) }
    {
        self.queue.pop()
    }

    /// A copy of the marked rows of a node, whose marks are cleared.
    pub(crate) fn changed(&mut self, alloc: Global, node: u32) -> Result<Items<Row<N>>, Memory>
        requires { node < length self.old.bases }
        ensures ok { IfOk result (λ rows. Clears N node self.old self.new rows) }
        ensures err { OnErr result (self.new ≡ self.old) }
    {
        let rows = changed_rows(
            alloc,
            self.bases[node as usize].rows(),
            &self.marks[node as usize],
        )?;
        self.marks[node as usize] = Row::zero();
        Ok(rows)
    }

    /// The bases, by node.
    pub fn into_bases(self) -> Vec<Basis<N>>
        ensures { result.items ≡ self.entry.bases }
    {
        let Nodes { bases, .. } = self;
        bases
    }
}
