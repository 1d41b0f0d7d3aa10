// The tests of one export by the module that needs it.
ghost use Rattle.std.specs.Prelude.{◌≡◌, ◌||◌};
ghost use Rattle.std.specs.List.{list_any};
ghost use Rattle.std.specs.Str.{bytes_eq};
ghost use Rattle.symbol_binding.specs.Needs.{agree as agree_spec, is_seen, is_allowed};

use km_names::{Name, Names};

/// Returns whether two versions of a symbol agree: they are equal, or one of them isn't stated. It
/// takes no memory. The kernel's CONFIG_MODVERSIONS, kernel/module/version.c.
#[tactic(auto, unfolding(crate::specs::Needs::agree))]
pub fn agree(a: Option<u64>, b: Option<u64>) -> bool
    ensures { result ≡ agree_spec a b }
{
    match (a, b) {
        (Some(a), Some(b)) => a == b,
        _ => true,
    }
}

/// Returns whether a module sees an export: it isn't GPL-only, or the module is GPL-compatible. The
/// kernel's EXPORT_SYMBOL_GPL, include/linux/export.h.
pub fn sees(free: bool, gpl: bool) -> bool
    ensures { result ≡ is_seen free gpl }
{
    !gpl || free
}

/// Returns whether a module that imports these namespaces may use an export in the namespace
/// `space`, which is empty for none. The kernel's MODULE_IMPORT_NS,
/// Documentation/core-api/symbol-namespaces.rst.
pub fn may_use(imports: &Names, space: &[u8]) -> bool
    ensures { result ≡ is_allowed imports.now space.now }
{
    space.is_empty() || has_name(imports.as_slice(), space)
}

fn has_name(names: &[Name], wanted: &[u8]) -> bool
    ensures { result ≡ list_any (λ name. bytes_eq name wanted.now) names.now }
{
    names.iter().any(|name| name.as_bytes() == wanted)
}
