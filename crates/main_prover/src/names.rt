//! The names of fresh variables.

ghost use Rattle.std.specs.Prelude.{◌≡◌, ◌++◌, [], IfOk, OnOk, codes, decimal, slice_index_or};
ghost use Rattle.main_vcs.specs.Walk as walk;

use main_form::Module;
use math_terms::{Name, NoMemory};
use std::alloc::Global;

fn put(out: &mut Vec<u8>, text: &[u8]) -> Result<(), NoMemory>
    ensures { OnOk result (out.new.items ≡ out.old.items ++ text.now) }
{
    match out.extend_from_slice(text) {
        Ok(()) => Ok(()),
        Err(_) => Err(NoMemory),
    }
}

// A name with a mark and a number after it.
fn marked(alloc: Global, name: &Name, k: u32) -> Result<Name, NoMemory>
    ensures { IfOk result (λ n. n ≡ name.now ++ (codes "'" ++ decimal k)) }
{
    let mark = format!(in alloc; "'{k}")?;
    let mut text = Vec::new(alloc);
    put(&mut text, name.bytes())?;
    put(&mut text, mark.as_str().as_bytes())?;
    Name::new(alloc, text.as_slice())
}

/// The name of the k-th fresh variable of a name after the first.
pub(crate) fn fresh_name(alloc: Global, name: &Name, k: u32) -> Result<Name, NoMemory>
    ensures { IfOk result (λ n. n ≡ walk.fresh_name name.now k) }
{
    if k == 0 {
        name.copy(alloc)
    } else {
        marked(alloc, name, k)
    }
}

/// The name of a variable by its number.
pub(crate) fn variable_name(alloc: Global, m: &Module, k: u32) -> Result<Name, NoMemory>
    ensures { IfOk result (λ n. n ≡ slice_index_or m.now.variables k []) }
{
    match m.variables.as_slice().get(k as usize) {
        Some(name) => name.copy(alloc),
        None => Name::new(alloc, b""),
    }
}
