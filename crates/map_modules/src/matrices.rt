//! The identity, products, images, and the map after an affine assignment.

ghost use Rattle.std.specs.Prelude.{◌≡◌, ◌*◌, ◌/◌, ◌<◌, ◌≤◌};
ghost use Rattle.map_modules.specs.Matrices.{identity, moved, product, apply, assigned};

use crate::Mat;
use crate::kernels::{add_times_row, assigned_word, matrix_from};
use word_rows::Row;

/// The map that keeps the positions below width and the constant, and clears the others.
pub fn identity(width: u32) -> Mat
    requires { width ≤ 16 }
    ensures { result ≡ identity width }
{
    matrix_from(|i, j| {
        if i == j && (i < width as usize || i == 16) {
            1
        } else {
            0
        }
    })
}

/// What a map makes of a row of whole columns: of a state, or of the map before it.
pub fn moved<const N: usize>(m: &Mat, v: &Row<N>) -> Row<N>
    requires { N ≡ 17 * (N / 17) }
    ensures { result ≡ moved (N / 17) m.now v.now }
{
    v.known();
    let mut words = [0u64; N];
    for i in 0..17usize {
        for l in 0..17usize {
            add_times_row(&mut words, i, m.get(17 * i + l), v, l);
        }
    }
    Row::from_words(&words)
}

/// The map `before`, and then the map `after`.
pub fn product(after: &Mat, before: &Mat) -> Mat
    ensures { result ≡ product after.now before.now }
{
    moved(after, before)
}

/// What a map makes of a row.
pub fn apply(m: &Mat, v: &Row<17>) -> Row<17>
    ensures { result ≡ apply m.now v.now }
{
    moved(m, v)
}

/// A state, or a map, and then position i becomes the sum of the form's products with the state.
pub fn after_affine<const N: usize>(v: &Row<N>, i: usize, form: &Row<17>) -> Row<N>
    requires whole { N ≡ 17 * (N / 17) }
    requires position { i < 16 }
    ensures { result ≡ assigned (N / 17) v.now i form.now }
{
    v.known();
    let columns = N / 17;
    let mut words = [0u64; N];
    for (at, word) in words.iter_mut().enumerate() {
        *word = assigned_word(v, i, form, at / columns, at % columns);
    }
    Row::from_words(&words)
}
