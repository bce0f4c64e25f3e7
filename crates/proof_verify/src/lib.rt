//! The check of what a proof claims of a program, without any iteration.
//!
//! A proof gives for each head of a block program a basis of maps, for each procedure a basis of states, and for nodes rows
//! that are to hold there. [`first_breach`] tries the rules of `proof_rules` on them, one item after the other, and tells the
//! first that is broken. Where none is, each claimed row holds at its node after every open path from every start. Each item
//! is a test of membership, or of a product that has to be 0: nothing is solved, and no fixed point is looked for. So what
//! made the rows need not be trusted. How a proof is read, and which point a node is, is left to others.
//!
//! ```text
//! match first_breach(alloc, &program, &blocks, &levels, &entries, &claims, &mut steps)? {
//!     None => println!("yes"),
//!     Some(breach) => println!("{breach:?}"),
//! }
//! ```
#![tactic(auto)]

mod bases;
mod claims;
mod edges;
mod first;
mod known;
mod lookups;
mod matrices;
mod openings;
mod passes;
mod points;
mod starts;
mod verdict;

use sqlite_items::Items;
pub use verdict::first_breach;
use word_rows::Row;

/// Rows that are claimed at a node: each is to give 0 on the state of every open path that ends there.
#[derive(Debug, Drop)]
pub struct Claim {
    pub node: u32,
    pub rows: Items<Row<17>>,
}

/// The first item that is broken: of the rule of openings, a procedure; of the rules of steps, of calls and of what calls
/// hand over, an edge of the block program; the starts; or a claim. Each by its number.
#[derive(Clone, Copy, PartialEq, Eq, Debug)]
pub enum Breach {
    Opening(usize),
    Step(usize),
    Call(usize),
    Start,
    Entry(usize),
    Claimed(usize),
}
