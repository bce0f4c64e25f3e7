//! The generator.

ghost use Rattle.std.specs.Prelude.{◌≡◌, length, IfOk, MatchResult, OnOk};
ghost use Rattle.gen_elf.specs.Generated.{AddsCode, IsGenerated, IsGenRefusal, IsInRange, code_of, file_size};

use crate::GenRefusal;
use crate::code::{procedure_code, push_code, start_code};
use elf_write::push_small_headers;
use std::alloc::{AllocError, Global};

/// The file with `n` procedures.
pub fn generate(alloc: Global, n: u32) -> Result<Vec<u8>, GenRefusal>
    ensures file { MatchResult result (λ bytes. IsGenerated n bytes.items) (IsGenRefusal n) }
    ensures size { IfOk result (λ bytes. length bytes.items ≡ file_size n) }
{
    if n == 0 || n > 100 {
        return Err(GenRefusal::Range(n));
    }
    match file_of(alloc, n) {
        Ok(bytes) => Ok(bytes),
        Err(_) => Err(GenRefusal::Memory),
    }
}

fn file_of(alloc: Global, n: u32) -> Result<Vec<u8>, AllocError>
    requires { IsInRange n }
    ensures { IfOk result (λ bytes. IsGenerated n bytes.items) }
{
    let mut file = Vec::new(alloc);
    push_small_headers(&mut file, 0, 132 + 32 * u64::from(n))?;
    push_all_code(&mut file, n)?;
    Ok(file)
}

fn push_all_code(file: &mut Vec<u8>, n: u32) -> Result<(), AllocError>
    requires { IsInRange n }
    ensures { OnOk result (AddsCode file.old.items (code_of n) file.new.items) }
{
    push_code(file, &start_code())?;
    for i in 0..n {
        push_code(file, &procedure_code(n, i + 1))?;
    }
    Ok(())
}
