//! What holds of all matrices. Each function runs nothing; its contract is a law.

ghost use Rattle.std.specs.Prelude.{ℕ};
ghost use Rattle.map_modules.specs.Laws.{AffineIsProduct, AffineMapsCompose, AffineMapsKeepStates, AfterAffineIsLinear, ApplyIsLinear, ApplyOfProduct, ExtensionIsLinear, FewEntriesUsed, IdentityIsNeutral, KeepingIsLinear, KeepingLeavesWords, MatricesOnAreModule, ProductIsLinear, ProductsAssociate, ProductsStayOn};

/// Products associate, the identity is neutral, to apply a product is to apply twice, and an affine assignment is a product.
pub fn products_associate()
    ensures associative { ProductsAssociate }
    ensures neutral { IdentityIsNeutral }
    ensures apply { ApplyOfProduct }
    ensures affine { AffineIsProduct }
{}

/// Products, images, affine assignments and extensions commute with adding a multiple, in each of their matrices.
pub fn maps_are_linear()
    ensures product { ProductIsLinear }
    ensures apply { ApplyIsLinear }
    ensures after_affine { AfterAffineIsLinear }
    ensures extend_call { ExtensionIsLinear }
{}

/// What is made of affine maps is one, and an affine map takes states to states.
pub fn affine_maps_compose()
    ensures compose { AffineMapsCompose }
    ensures states { AffineMapsKeepStates }
{}

/// The matrices that keep a position are a module, and an affine map keeps it exactly where it leaves each state's word there.
pub fn keeping_is_linear()
    ensures linear { (r : ℕ) → KeepingIsLinear r }
    ensures words { KeepingLeavesWords }
{}

/// The matrices that are 0 outside some rows and columns are a module, products stay there, and few rows and columns hold few
/// words.
pub fn matrices_on_positions()
    ensures closed { MatricesOnAreModule }
    ensures products { ProductsStayOn }
    ensures few { FewEntriesUsed }
{}
