// What the names of a request stand for.
ghost use Rattle.std.specs.Prelude.{◌≡◌, ◌++◌, IfOk, OnOk};
ghost use Rattle.km_names.specs.AliasForm.{normal_or_itself};
ghost use Rattle.km_course.specs.FollowsOn.{Returns};
ghost use Rattle.km_course.specs.declared.end.End.TheVariants.{Refused};
ghost use Rattle.km_course.specs.declared.refusal.Refusal.TheVariants.{NotFound};
ghost use Rattle.km_course.specs.declared.stop.Stop.TheVariants.{Ended};
ghost use Rattle.stages_known.specs.Named.{names_outcome};
ghost use Rattle.stages_known.specs.declared.known.Known.{Known};

use crate::known::Known;
use km_course::{Refusal, Stop};
use km_names::{Name, Names, normal_or_itself};
use name_lookup::Lookup;
use std::alloc::{AllocError, Global};

/// Returns the names that the names of a request stand for, in their order. If one stands for
/// nothing, the first such name is refused. modprobe(8), modprobe.d(5).
pub fn names_found(
    alloc: Global,
    known: &Known,
    use_blacklist: bool,
    names: &[Name],
) -> Result<Names, Stop>
    ensures { Returns (names_outcome known.now use_blacklist names.now) result }
{
    let lookup = Lookup::new(alloc, &known.rules, &known.indexes)?;
    names_by(alloc, &lookup, use_blacklist, names)
}

/// Returns the names that names stand for by a lookup in what is known.
fn names_by(
    alloc: Global,
    lookup: &Lookup<'_>,
    use_blacklist: bool,
    names: &[Name],
) -> Result<Names, Stop>
    ensures { (known : Known) → known.rules ≡ lookup.now.rules → known.indexes ≡ lookup.now.indexes
        → Returns (names_outcome known use_blacklist names.now) result }
{
    let mut all = Names::new(alloc);
    for name in names {
        let found = lookup.find(alloc, name, use_blacklist)?;
        if found.list == 0 {
            let unknown = not_found(alloc, name)?;
            return Err(unknown);
        }
        push_names(alloc, &mut all, &found.names)?;
    }
    Ok(all)
}

/// Returns the refusal of a name that stands for nothing, in its normal form if it has one.
fn not_found(alloc: Global, name: &Name) -> Result<Stop, AllocError>
    ensures { IfOk result (λ stop. stop ≡ Ended (Refused (NotFound (normal_or_itself name.now)))) }
{
    let name = normal_or_itself(alloc, name.as_bytes())?;
    Ok(Stop::from(Refusal::NotFound { name }))
}

/// Puts copies of names at the end.
fn push_names(alloc: Global, all: &mut Names, names: &Names) -> Result<(), AllocError>
    ensures { OnOk result (all.new ≡ all.old ++ names.now) }
{
    for name in names.as_slice() {
        all.push(Name::from_slice(alloc, name.as_bytes())?)?;
    }
    Ok(())
}
