//! Linear and bilinear maps of rows.

ghost use Rattle.row_modules.specs.Laws.{ImageIsSpanned, ImageIsWithin, ProductsAreSpanned, ProductsAreWithin};

use crate::RowSet;

/// The image of a module under a linear map is spanned by the images of its generators, and modules that lie in one another
/// have images that do.
pub fn images_of_modules<P: RowSet, Q: RowSet>()
    ensures spanned { ImageIsSpanned P.member }
    ensures within { ImageIsWithin P.member Q.member }
{}

/// A map that is linear in each of two arguments takes two generating sets to one of the products, and the products of
/// modules lie in one another where these do.
pub fn products_of_modules<P: RowSet, Q: RowSet, R: RowSet, S: RowSet>()
    ensures spanned { ProductsAreSpanned P.member Q.member }
    ensures within { ProductsAreWithin P.member Q.member R.member S.member }
{}
