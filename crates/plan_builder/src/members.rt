// The names that the names of a request are resolved to.
ghost use Rattle.std.specs.Prelude.{◌≡◌, ◌||◌, ℕ, List, IfOk, OnOk};
ghost use Rattle.name_table.specs.FirstSeen.{is_among};
ghost use Rattle.plan_builder.specs.Requested.{is_member_of};

use km_names::Names;
use name_lookup::Found;
use name_table::NameSet;
use std::alloc::{AllocError, Global};

/// Lists all names that were found.
pub(crate) fn member_names<'a>(
    alloc: Global,
    founds: &'a [Found],
) -> Result<NameSet<'a>, AllocError>
    ensures { IfOk result
        (λ names. (name : List ℕ) → is_among names name ≡ is_member_of founds.now name) }
{
    let mut names = NameSet::new(alloc);
    for found in founds {
        insert_all(&mut names, &found.names)?;
    }
    Ok(names)
}

/// Puts names into a set.
pub(crate) fn insert_all<'a>(names: &mut NameSet<'a>, more: &'a Names) -> Result<(), AllocError>
    ensures { OnOk result
        ((name : List ℕ)
        → is_among names.new name ≡ (is_among names.old name || is_among more.now name)) }
{
    for name in more.as_slice() {
        names.insert(name.as_bytes())?;
    }
    Ok(())
}
