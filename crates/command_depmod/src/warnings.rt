// The warnings of `-e`.
ghost use Rattle.std.specs.Prelude.{◌≡◌, ◌++◌, codes, IfOk};
ghost use Rattle.km_course.specs.FollowsOn.{FollowsOnErr};
ghost use Rattle.km_course.specs.Lines.{line};
ghost use Rattle.command_depmod.specs.Warnings.{warning_line, warns_any, warns_each, warns_unmet};

use km_course::{Stop, warn};
use km_names::{Blob, Name, PathText};
use outside_calls::Out;
use provider_rel::Unbound;
use std::alloc::{AllocError, Global};

/// Warns of obstacles, if asked; of versions that differ only if versions are known. depmod(8),
/// `-e`.
pub(crate) fn warn_unmet<E: Out>(
    alloc: Global,
    errsyms: bool,
    versions: bool,
    obstacles: &[Unbound],
    err: &mut E,
) -> Result<(), Stop>
    ensures { FollowsOnErr (warns_unmet errsyms versions obstacles.now)
        E.seen err.old err.new result }
{
    if errsyms {
        return warn_each(alloc, versions, obstacles, err);
    }
    Ok(())
}

/// Warns of each of the obstacles, in their order.
fn warn_each<E: Out>(
    alloc: Global,
    versions: bool,
    obstacles: &[Unbound],
    err: &mut E,
) -> Result<(), Stop>
    ensures { FollowsOnErr (warns_each versions obstacles.now) E.seen err.old err.new result }
{
    for obstacle in obstacles {
        warn_of(alloc, versions, obstacle, err)?;
    }
    Ok(())
}

/// Warns of an obstacle, if it is one to warn of.
fn warn_of<E: Out>(
    alloc: Global,
    versions: bool,
    obstacle: &Unbound,
    err: &mut E,
) -> Result<(), Stop>
    ensures { FollowsOnErr (warns_any (warning_line versions obstacle.now))
        E.seen err.old err.new result }
{
    match warning(alloc, versions, obstacle)? {
        Some(text) => warn(err, text.as_bytes()),
        None => Ok(()),
    }
}

/// Returns the line that warns of an obstacle, if it is one to warn of.
fn warning(alloc: Global, versions: bool, obstacle: &Unbound) -> Result<Option<Blob>, AllocError>
    ensures { IfOk result (λ text. text ≡ warning_line versions obstacle.now) }
{
    match obstacle {
        Unbound::Missing { path, symbol } => {
            Ok(Some(line(alloc, path, b" needs unknown symbol ", symbol)?))
        }
        Unbound::Version {
            path,
            symbol,
            provider: _,
        } => {
            if !versions {
                return Ok(None);
            }
            let text = line(alloc, path, b" disagrees about version of symbol ", symbol)?;
            Ok(Some(text))
        }
        Unbound::Gpl { .. } | Unbound::Namespace { .. } | Unbound::Double { .. } => Ok(None),
    }
}

/// Returns the line of a warning.
fn line(alloc: Global, path: &PathText, what: &[u8], symbol: &Name) -> Result<Blob, AllocError>
    ensures { IfOk result
        (λ text. text ≡ line (codes "warning: " ++ (path.now ++ (what.now ++ symbol.now)))) }
{
    let mut text = Blob::from_slice(alloc, b"kmod: warning: ")?;
    text.extend(path.as_bytes())?;
    text.extend(what)?;
    text.extend(symbol.as_bytes())?;
    text.push(b'\n')?;
    Ok(text)
}
