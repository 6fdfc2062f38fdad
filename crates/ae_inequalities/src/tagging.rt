//! The tags of derivations, one after another.
ghost use Rattle.std.specs.Prelude.{◌≡◌, ◌++◌, IfOk, OnOk};
ghost use Rattle.std.specs.List.{flat_map};
ghost use Rattle.ae_inequalities.specs.Held.{tags_at};

use ae_core::lists::List;
use std::alloc::{AllocError, Global};

/// Adds numbers.
fn add_all(alloc: Global, all: &mut List<usize>, more: &[usize]) -> Result<(), AllocError>
    ensures { OnOk result (all.new ≡ all.old ++ more.now) }
{
    let copies = List::from_slice(alloc, more)?;
    all.append(copies)
}

/// Adds the tags of the derivation of this number.
fn add_tags(
    alloc: Global,
    all: &mut List<usize>,
    tags: &[List<usize>],
    number: usize,
) -> Result<(), AllocError>
    ensures { OnOk result (all.new ≡ all.old ++ tags_at tags.now number) }
{
    match tags.get(number) {
        Some(more) => add_all(alloc, all, more.as_slice()),
        None => Ok(()),
    }
}

/// The tags of the derivations of these numbers.
pub fn joined(
    alloc: Global,
    tags: &[List<usize>],
    used: &[usize],
) -> Result<List<usize>, AllocError>
    ensures { IfOk result (λ all. all ≡ flat_map (tags_at tags.now) used.now) }
{
    let mut all = List::new(alloc);
    for number in used {
        add_tags(alloc, &mut all, tags, *number)?;
    }
    Ok(all)
}
