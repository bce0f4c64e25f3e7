//! What is answered.

ghost use Rattle.std.specs.Prelude.{◌≡◌};

use map_modules::MatBasis;
use std::marker::Model;

/// A basis for each node.
#[derive(Drop)]
pub struct Summaries {
    pub(crate) levels: Vec<MatBasis>,
}

impl Model for Summaries {
    ghost use Rattle.std.specs.Prelude.{ℕ, List};

    ghost Value = { List (List (List ℕ)) };

    ghost view = { λ s. s.levels.items };
}

impl Summaries {
    /// The bases, by node. It takes no memory.
    pub fn levels(&self) -> &[MatBasis]
        ensures { result.now ≡ self.now }
    {
        &self.levels
    }
}

/// A basis for each procedure.
#[derive(Drop)]
pub struct Exits {
    pub(crate) bases: Vec<MatBasis>,
}

impl Model for Exits {
    ghost use Rattle.std.specs.Prelude.{ℕ, List};

    ghost Value = { List (List (List ℕ)) };

    ghost view = { λ e. e.bases.items };
}

impl Exits {
    /// The bases, by procedure. It takes no memory.
    pub fn bases(&self) -> &[MatBasis]
        ensures { result.now ≡ self.now }
    {
        &self.bases
    }
}
