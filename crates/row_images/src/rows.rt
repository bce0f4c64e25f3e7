//! What a list of assignments makes of a row.

ghost use Rattle.std.specs.Prelude.{◌≡◌, ◌<◌, ◌≤◌, ◌++◌, ◌*◌, ◌/◌, [], All, map, IfOk, OnOk};
ghost use Rattle.map_modules.specs.Matrices.{moved};
ghost use Rattle.affine_prog.specs.Assignments.{position_of, made};
ghost use Rattle.row_images.specs.Images.{column, unknown_rows, images_of, AreImages, IsConstantRow, IsPrepared};

use affine_prog::Assign;
use lead_basis::Memory;
use map_modules::{Mat, after_affine, identity, moved};
use sqlite_items::Items;
use std::alloc::Global;
use word_rows::Row;

/// What a list makes of a row where each unknown word is 0.
fn under_zeros<const N: usize>(assigns: &[Assign], start: Row<N>) -> Row<N>
    requires whole { N ≡ 17 * (N / 17) }
    requires placed { All (λ a. position_of a < 16) assigns.now }
    ensures { result ≡ made (N / 17) assigns.now [] start.entry }
{
    start.known();
    let mut made = start;
    for assign in assigns {
        made = match assign {
            Assign::Affine(i, row) => after_affine(&made, usize::from(*i), row),
            Assign::Any(i) => after_affine(&made, usize::from(*i), &Row::zero()),
        };
    }
    made
}

/// Adds what each unknown assignment adds where a word more is chosen.
fn add_unknown_rows<const N: usize>(
    images: &mut Items<Row<N>>,
    assigns: &[Assign],
    word: u64,
) -> Result<(), Memory>
    requires some { 1 ≤ N }
    requires within { N ≤ 512 }
    requires whole { N ≡ 17 * (N / 17) }
    requires placed { All (λ a. position_of a < 16) assigns.now }
    ensures { OnOk result (images.new ≡ images.old ++ unknown_rows (N / 17) assigns.now word) }
{
    for (k, assign) in assigns.iter().enumerate() {
        if let Assign::Any(i) = assign {
            let column = column(usize::from(*i), word);
            match images.push(under_zeros(&assigns[k + 1..], column)) {
                Ok(()) => {}
                Err(_) => return Err(Memory),
            }
        }
    }
    Ok(())
}

/// The matrix with this word at row i of the last column, and 0 elsewhere.
fn column<const N: usize>(i: usize, word: u64) -> Row<N>
    requires some { 1 ≤ N }
    requires within { N ≤ 512 }
    requires whole { N ≡ 17 * (N / 17) }
    requires row { i < 16 }
    ensures { result ≡ column (N / 17) i word }
{
    Row::zero().with(N / 17 * i + (N / 17 - 1), word)
}

/// Rows that generate what a list makes of a row: the image under zeros, and for each unknown assignment what it adds.
pub fn images<const N: usize>(
    alloc: Global,
    assigns: &[Assign],
    row: &Row<N>,
) -> Result<Items<Row<N>>, Memory>
    requires whole { N ≡ 17 * (N / 17) }
    requires placed { All (λ a. position_of a < 16) assigns.now }
    ensures listed { IfOk result (λ images. images ≡ images_of (N / 17) assigns.now row.now) }
    ensures exact { IsConstantRow (N / 17) row.now → IfOk result (AreImages (N / 17) assigns.now row.now) }
{
    row.known();
    let mut images = Items::new(alloc);
    match images.push(under_zeros(assigns, *row)) {
        Ok(()) => {}
        Err(_) => return Err(Memory),
    }
    let constant = row.get(N - 1);
    if constant != 0 {
        add_unknown_rows(&mut images, assigns, constant)?;
    }
    Ok(images)
}

/// What each map of a list makes of a row.
fn moved_by<const N: usize>(
    alloc: Global,
    maps: &[Mat],
    row: &Row<N>,
) -> Result<Items<Row<N>>, Memory>
    requires { N ≡ 17 * (N / 17) }
    ensures { IfOk result (λ all. all ≡ map (λ m. moved (N / 17) m row.now) maps.now) }
{
    let mut all = Items::new(alloc);
    for map in maps {
        match all.push(moved(map, row)) {
            Ok(()) => {}
            Err(_) => return Err(Memory),
        }
    }
    Ok(all)
}

/// The images, from the assignments or from what is prepared.
pub fn images_along<const N: usize>(
    alloc: Global,
    assigns: &[Assign],
    prepared: &[Mat],
    row: &Row<N>,
) -> Result<Items<Row<N>>, Memory>
    requires whole { N ≡ 17 * (N / 17) }
    requires placed { All (λ a. position_of a < 16) assigns.now }
    requires prepared { IsPrepared assigns.now prepared.now }
    requires constant { IsConstantRow (N / 17) row.now }
    ensures { IfOk result (λ images. images ≡ images_of (N / 17) assigns.now row.now) }
{
    if prepared.is_empty() {
        return images(alloc, assigns, row);
    }
    row.known();
    if row.get(N - 1) == 0 {
        moved_by(alloc, &prepared[..1], row)
    } else {
        moved_by(alloc, prepared, row)
    }
}

/// The images of the identity, where the list is longer than a map is wide.
pub fn prepare(alloc: Global, assigns: &[Assign]) -> Result<Items<Mat>, Memory>
    requires { All (λ a. position_of a < 16) assigns.now }
    ensures { IfOk result (λ prepared. IsPrepared assigns.now prepared) }
{
    if assigns.len() <= 17 {
        return Ok(Items::new(alloc));
    }
    images(alloc, assigns, &identity(16))
}
