//! Leading-position bases: the echelon form of a list of rows over 64-bit words, where a pivot may be even.
//!
//! A [`Basis`] always holds such a list, and stands for its module, all combinations of its rows. A row is added by
//! `insert`, which tells whether the module grew and counts the placements on a [`Steps`] counter; `member` is exact;
//! `reduced` gives the one basis of the module whose words in the column of each pivot are below it; `length` bounds the
//! placements that can ever be counted. Memory is taken for the rows alone, and out of memory the basis is still one,
//! with a module between the old and the new. For rows of 17 words `annihilator` gives the reduced basis of all rows on
//! chosen positions whose sum of products with each member wraps to 0. What the rows mean is left to the crates above.
//!
//! ```text
//! let mut basis = Basis::<2>::new(alloc);
//! basis.insert(Row::from_words(&[4, 1]), &mut steps)?;
//! basis.rows() == [[4, 1], [0, 1 << 62]] && basis.length() == 64
//! ```
#![tactic(auto)]

mod annihilator;
mod basis;
mod meaning;
mod mirror;
mod multiples;
mod place;
mod reduce;
mod relations;
mod steps;
mod whole;

pub use annihilator::generators_tell_annihilators;
pub use basis::Basis;
pub use meaning::{bases_tell_their_modules, modules_have_bases};
pub use steps::Steps;

/// Out of memory.
#[derive(Clone, Copy, Debug, PartialEq, Eq)]
pub struct Memory;
