//! What is claimed at nodes, tried on bases of their states.

ghost use Rattle.std.specs.Prelude.{◌≡◌, ◌<◌, ◌↔◌, All, IsTrue, length};
ghost use Rattle.word_rows.specs.Rows.{dot};
ghost use Rattle.row_modules.specs.Bases.{IsLeadingBasis};
ghost use Rattle.affine_prog.specs.Programs.{IsWellFormed};
ghost use Rattle.proof_verify.specs.Items.{IsFirst};
ghost use Rattle.proof_verify.specs.Points.{HaveStatesBelow};
ghost use Rattle.proof_verify.specs.Verdicts.{ClaimPasses, nth_claim};

use crate::Claim;
use crate::lookups::basis_at;
use affine_prog::Program;
use block_program::Blocks;
use lead_basis::Basis;
use map_modules::MatBasis;
use merged_heads::merged_nodes_follow;
use word_rows::Row;

// Whether a form is 0 on each state.
fn vanishes(form: &Row<17>, states: &[Row<17>]) -> bool
    ensures { IsTrue result ↔ All (λ v. dot form.now v ≡ 0) states.now }
{
    states.iter().all(|state| form.dot(state) == 0)
}

// Whether each form is 0 on each state.
fn all_vanish(forms: &[Row<17>], states: &[Row<17>]) -> bool
    ensures { IsTrue result ↔ All (λ a. All (λ v. dot a v ≡ 0) states.now) forms.now }
{
    forms.iter().all(|form| vanishes(form, states))
}

// Whether a claim passes, by bases of the states at all nodes.
fn claim_passes(
    program: &Program,
    blocks: &Blocks,
    levels: &[MatBasis],
    entries: &[Basis<17>],
    states: &[Basis<17>],
    claim: &Claim,
) -> bool
    requires formed { IsWellFormed program.now }
    requires level_bases { All (IsLeadingBasis 289) levels.now }
    requires entry_bases { All (IsLeadingBasis 17) entries.now }
    requires states { HaveStatesBelow program.now blocks.now levels.now entries.now program.now.nodes states.now }
    requires node { claim.now.node < program.now.nodes }
    ensures { IsTrue result ↔ ClaimPasses program.now blocks.now levels.now entries.now claim.now }
{
    merged_nodes_follow();
    let rows = basis_at(states, claim.node as usize).rows();
    all_vanish(claim.rows.as_slice(), rows)
}

/// The first claim that doesn't pass.
pub(crate) fn first_broken_claim(
    program: &Program,
    blocks: &Blocks,
    levels: &[MatBasis],
    entries: &[Basis<17>],
    states: &[Basis<17>],
    claims: &[Claim],
) -> Option<usize>
    requires formed { IsWellFormed program.now }
    requires level_bases { All (IsLeadingBasis 289) levels.now }
    requires entry_bases { All (IsLeadingBasis 17) entries.now }
    requires states { HaveStatesBelow program.now blocks.now levels.now entries.now program.now.nodes states.now }
    requires nodes { All (λ c. c.node < program.now.nodes) claims.now }
    ensures { IsFirst (λ k. ClaimPasses program.now blocks.now levels.now entries.now (nth_claim claims.now k)) (length claims.now) result }
{
    for (k, claim) in claims.iter().enumerate() {
        if !claim_passes(program, blocks, levels, entries, states, claim) {
            return Some(k);
        }
    }
    None
}
