// The files of indexes that more than one crate of tests expects, byte by byte: modules.dep,
// modules.dep.bin, modules.alias, modules.alias.bin, modules.softdep, modules.symbols,
// modules.symbols.bin, modules.builtin.bin and modules.unmet, in the order in which they are
// replaced. A separate program made the binary ones from the format.

/// A text without aliases.
pub const NO_ALIASES: &[u8] = b"# Aliases extracted from modules themselves.\n";

/// A text without soft dependencies.
pub const NO_SOFTDEPS: &[u8] = b"# Soft dependencies extracted from modules themselves.\n";

/// A text without symbols.
pub const NO_SYMBOLS: &[u8] = b"# Aliases for symbols, used by symbol_request().\n";

/// An index without keys.
pub const NO_KEYS: &[u8] = b"\xb0\x07\xf4W\x00\x02\x00\x01\x00\x00\x00\x0c";

/// The modules.dep of one module, which needs no other.
pub const ONE_LINE: &[u8] = b"kernel/n.ko:\n";

/// Its modules.dep.bin.
pub const ONE_LINE_INDEX: &[u8] = b"\xb0\x07\xf4W\x00\x02\x00\x01 \x00\x00!\
      \x00\x00\x00\x01\x00\x00\x00\x00kernel/n.ko:\x00\
      nn@\x00\x00\x0c";

/// The modules.dep of the two modules of `TWO`.
pub const TWO_LINES: &[u8] = b"kernel/a.ko:\nkernel/b.ko: kernel/a.ko\n";

/// Its modules.dep.bin.
pub const TWO_LINES_INDEX: &[u8] = b"\xb0\x07\xf4W\x00\x02\x00\x01 \x00\x00B\
      \x00\x00\x00\x01\x00\x00\x00\x00kernel/a.ko:\x00\
      \x00\x00\x00\x01\x00\x00\x00\x01kernel/b.ko: kernel/a.ko\x00\
      ab@\x00\x00\x0c@\x00\x00!";

/// The modules.symbols of the symbol `fa`, which `a` exports.
pub const ONE_SYMBOL: &[u8] =
    b"# Aliases for symbols, used by symbol_request().\nalias symbol:fa a\n";

/// Its modules.symbols.bin, if `a` is the first module.
pub const ONE_SYMBOL_INDEX: &[u8] = b"\xb0\x07\xf4W\x00\x02\x00\x01 \x00\x00\x1f\
      ymbol:fa\x00\x00\x00\x00\x01\x00\x00\x00\x00a\x00\
      ss\xc0\x00\x00\x0c";

/// Of the two modules of `TWO`.
pub const TWO_FILES: [&'static [u8]; 9] = [
    TWO_LINES,
    TWO_LINES_INDEX,
    NO_ALIASES,
    NO_KEYS,
    NO_SOFTDEPS,
    ONE_SYMBOL,
    ONE_SYMBOL_INDEX,
    NO_KEYS,
    b"",
];

/// Of a module that needs what nobody exports.
pub const NOSUCH_MISSING: [&'static [u8]; 9] = [
    ONE_LINE,
    ONE_LINE_INDEX,
    NO_ALIASES,
    NO_KEYS,
    NO_SOFTDEPS,
    NO_SYMBOLS,
    NO_KEYS,
    NO_KEYS,
    b"missing kernel/n.ko nosuch\n",
];
