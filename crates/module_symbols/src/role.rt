// What one symbol states of a name.

ghost use Rattle.std.specs.Prelude.{◌≡◌, option_copied};
ghost use Rattle.elf_object.specs.Symbols.{owned_symbol};
ghost use Rattle.km_names.specs.Prefix.{rest_after};
ghost use Rattle.module_symbols.specs.Roles.{stated_name};

use elf_format::{SHN_UNDEF, STB_GLOBAL, STB_WEAK};
use elf_object::SymbolRef;

/// What a defined symbol may state of a name. The kernel's include/linux/export.h.
#[derive(Clone, Copy)]
pub enum Role {
    /// `__ksymtab_N` states that the module exports N.
    Export,
    /// `__crc_N` gives the version of N.
    Version,
    /// `__kstrtabns_N` gives the namespace of N.
    Space,
    /// A global or weak symbol N defines N.
    Definition,
}

/// Returns the name that a symbol states in a role.
#[tactic(auto, unfolding(crate::specs::Roles::stated_name))]
#[inline]
pub(crate) fn stated_name<'a>(role: Role, symbol: SymbolRef<'a>) -> Option<&'a [u8]>
    ensures { option_copied result ≡ stated_name role (owned_symbol symbol.entry) }
{
    if symbol.section == SHN_UNDEF {
        return None;
    }
    match role {
        Role::Export => rest_after(b"__ksymtab_", symbol.name),
        Role::Version => rest_after(b"__crc_", symbol.name),
        Role::Space => rest_after(b"__kstrtabns_", symbol.name),
        Role::Definition => {
            if symbol.binding == STB_GLOBAL || symbol.binding == STB_WEAK {
                Some(symbol.name)
            } else {
                None
            }
        }
    }
}

/// Returns the rest of a name after a prefix, if the name begins with it.
#[inline(always)]
fn rest_after<'a>(prefix: &[u8], name: &'a [u8]) -> Option<&'a [u8]>
    ensures { option_copied result ≡ rest_after prefix.now name.now }
{
    // Most names differ from the prefix in their first byte, and are skipped at once.
    if let (Some(first), Some(wanted)) = (name.first(), prefix.first()) {
        if *first != *wanted {
            return None;
        }
    }
    name.strip_prefix(prefix)
}
