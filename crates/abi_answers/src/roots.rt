//! The procedures that are asked for.

ghost use Rattle.std.specs.Prelude.{◌≡◌, ◌++◌, ◌∷◌, [], IfOk, OnOk};
ghost use Rattle.abi_answers.specs.Answers.{coded, all_coded, roots_of, roots_in};

use elf_image::{Image, Symbol};
use entry_tables::has_code;
use sqlite_items::Items;
use std::alloc::{AllocError, Global};

/// The entry, and each function's symbol with code.
pub fn roots_of(alloc: Global, image: &Image) -> Result<Items<u64>, AllocError>
    ensures { IfOk result (λ roots. roots ≡ roots_of image.now) }
{
    let mut roots = Items::new(alloc);
    push(&mut roots, image.entry)?;
    add_all_coded(&mut roots, image, image.symbols.as_slice())?;
    Ok(roots)
}

/// One procedure alone, or these, where none is chosen.
pub(crate) fn roots_in(
    alloc: Global,
    image: &Image,
    root: Option<u64>,
) -> Result<Items<u64>, AllocError>
    ensures { IfOk result (λ roots. roots ≡ roots_in image.now root) }
{
    match root {
        Some(a) => {
            let mut roots = Items::new(alloc);
            push(&mut roots, a)?;
            Ok(roots)
        }
        None => roots_of(alloc, image),
    }
}

fn add_all_coded(
    roots: &mut Items<u64>,
    image: &Image,
    symbols: &[Symbol],
) -> Result<(), AllocError>
    ensures { OnOk result (roots.new ≡ roots.old ++ all_coded image.now symbols.now) }
{
    for symbol in symbols {
        add_coded(roots, image, symbol.value)?;
    }
    Ok(())
}

fn add_coded(roots: &mut Items<u64>, image: &Image, a: u64) -> Result<(), AllocError>
    ensures { OnOk result (roots.new ≡ roots.old ++ coded image.now a) }
{
    if has_code(image, a) {
        push(roots, a)
    } else {
        Ok(())
    }
}

fn push(roots: &mut Items<u64>, a: u64) -> Result<(), AllocError>
    ensures { OnOk result (roots.new ≡ roots.old ++ a ∷ []) }
{
    match roots.push(a) {
        Ok(()) => Ok(()),
        Err(_) => Err(AllocError),
    }
}
