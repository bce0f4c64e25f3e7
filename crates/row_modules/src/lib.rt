//! The algebra of modules over 64-bit words: what a combination of rows is, and the laws from which later proofs cite.
//!
//! A set of rows generates a module: all sums of words times its rows. The set may be the rows of a list, or any other:
//! the maps of all paths, the states of all paths. Each function here runs nothing; its contract is a law, proved for every
//! set. `combinations` has sums, inclusions and generators, `maps` has linear and bilinear maps, `positions` has rows
//! that are 0 outside a set of positions, and `forms` has rows as linear forms. How a module is kept, as a list of rows in echelon form, is left to the crates above.
//!
//! ```
//! combinations_are_a_module::<P>(); // the combinations of rows of a set P are a module
//! ```
#![tactic(auto)]

mod combinations;
mod forms;
mod maps;
mod positions;

pub use combinations::{
    choices_are_spanned, combinations_are_a_module, inclusions, lists_with_one_more,
    module_is_least,
};
pub use forms::{dot_is_bilinear, zeros_of_forms};
pub use maps::{images_of_modules, products_of_modules};
pub use positions::rows_on_positions;

/// A set of rows. A law with such a parameter holds of every set.
pub trait RowSet {
    ghost use Rattle.std.specs.Prelude.{ℕ, List};

    ghost member: { List ℕ → Type 0 };
}
