// The files of indexes, byte by byte: modules.dep, modules.dep.bin, modules.alias,
// modules.alias.bin, modules.softdep, modules.symbols, modules.symbols.bin, modules.builtin.bin and
// modules.unmet. A separate program made the binary ones from the format.
use test_rows::{
    NO_ALIASES, NO_KEYS, NO_SOFTDEPS, NO_SYMBOLS, ONE_LINE, ONE_LINE_INDEX, ONE_SYMBOL,
    ONE_SYMBOL_INDEX, TWO_LINES, TWO_LINES_INDEX,
};

/// The contents of files of an index, in the order in which they are replaced.
pub(crate) type Files = [&'static [u8]; 9];

/// Of no module.
pub(crate) const NONE: Files = [
    b"",
    NO_KEYS,
    NO_ALIASES,
    NO_KEYS,
    NO_SOFTDEPS,
    NO_SYMBOLS,
    NO_KEYS,
    NO_KEYS,
    b"",
];

/// Of the two modules of `TWO` and `c`, which needs nothing, exports `fc`, and has an alias and a
/// soft dependency.
pub(crate) const WITH_C: Files = [
    b"kernel/a.ko:\nkernel/b.ko: kernel/a.ko\nkernel/c.ko:\n",
    b"\xb0\x07\xf4W\x00\x02\x00\x01 \x00\x00W\
      \x00\x00\x00\x01\x00\x00\x00\x00kernel/a.ko:\x00\
      \x00\x00\x00\x01\x00\x00\x00\x01kernel/b.ko: kernel/a.ko\x00\
      \x00\x00\x00\x01\x00\x00\x00\x02kernel/c.ko:\x00\
      ac@\x00\x00\x0c@\x00\x00!@\x00\x00B",
    b"# Aliases extracted from modules themselves.\nalias c:* c\n",
    b"\xb0\x07\xf4W\x00\x02\x00\x01 \x00\x00\x19\
      :*\x00\x00\x00\x00\x01\x00\x00\x00\x02c\x00\
      cc\xc0\x00\x00\x0c",
    b"# Soft dependencies extracted from modules themselves.\nsoftdep c post: a\n",
    b"# Aliases for symbols, used by symbol_request().\nalias symbol:fa a\nalias symbol:fc c\n",
    b"\xb0\x07\xf4W\x00\x02\x00\x01 \x00\x006\
      \x00\x00\x00\x01\x00\x00\x00\x00a\x00\
      \x00\x00\x00\x01\x00\x00\x00\x02c\x00\
      ymbol:f\x00ac@\x00\x00\x0c\x00\x00\x00\x00@\x00\x00\x16\
      ss\xa0\x00\x00 ",
    NO_KEYS,
    b"",
];

/// Of only `a`.
pub(crate) const A_ALONE: Files = [
    b"kernel/a.ko:\n",
    b"\xb0\x07\xf4W\x00\x02\x00\x01 \x00\x00!\
      \x00\x00\x00\x01\x00\x00\x00\x00kernel/a.ko:\x00\
      aa@\x00\x00\x0c",
    NO_ALIASES,
    NO_KEYS,
    NO_SOFTDEPS,
    ONE_SYMBOL,
    ONE_SYMBOL_INDEX,
    NO_KEYS,
    b"",
];

/// Of `x`, which has an alias and a soft dependency.
pub(crate) const ALIASES_OF_X: Files = [
    b"kernel/x.ko:\n",
    b"\xb0\x07\xf4W\x00\x02\x00\x01 \x00\x00!\
      \x00\x00\x00\x01\x00\x00\x00\x00kernel/x.ko:\x00\
      xx@\x00\x00\x0c",
    b"# Aliases extracted from modules themselves.\nalias pci-x:v0000[!a-f]d* x\n",
    b"\xb0\x07\xf4W\x00\x02\x00\x01 \x00\x00)\
      ci_x:v0000[!a-f]d*\x00\x00\x00\x00\x01\x00\x00\x00\x00x\x00\
      pp\xc0\x00\x00\x0c",
    b"# Soft dependencies extracted from modules themselves.\nsoftdep x pre: y\n",
    NO_SYMBOLS,
    NO_KEYS,
    NO_KEYS,
    b"",
];

/// Of two modules that export `fa`, and one that needs it.
pub(crate) const EXPORTED_TWICE: Files = [
    b"kernel/a.ko:\nkernel/b.ko:\nkernel/c.ko: kernel/a.ko\n",
    b"\xb0\x07\xf4W\x00\x02\x00\x01 \x00\x00W\
      \x00\x00\x00\x01\x00\x00\x00\x00kernel/a.ko:\x00\
      \x00\x00\x00\x01\x00\x00\x00\x01kernel/b.ko:\x00\
      \x00\x00\x00\x01\x00\x00\x00\x02kernel/c.ko: kernel/a.ko\x00\
      ac@\x00\x00\x0c@\x00\x00!@\x00\x006",
    NO_ALIASES,
    NO_KEYS,
    NO_SOFTDEPS,
    b"# Aliases for symbols, used by symbol_request().\nalias symbol:fa a\nalias symbol:fa b\n",
    b"\xb0\x07\xf4W\x00\x02\x00\x01 \x00\x00%\
      ymbol:fa\x00\x00\x00\x00\x02\x00\x00\x00\x00a\x00\
      \x00\x00\x00\x01b\x00\
      ss\xc0\x00\x00\x0c",
    NO_KEYS,
    b"double fa kernel/a.ko kernel/b.ko\n",
];

/// The same over an unknown kernel.
pub(crate) const N_ALONE: Files = [
    ONE_LINE,
    ONE_LINE_INDEX,
    NO_ALIASES,
    NO_KEYS,
    NO_SOFTDEPS,
    NO_SYMBOLS,
    NO_KEYS,
    NO_KEYS,
    b"",
];

/// Of a module that needs another version than its provider's.
pub(crate) const VERSION_DIFFERS: Files = [
    b"kernel/p.ko:\nkernel/w.ko: kernel/p.ko\n",
    b"\xb0\x07\xf4W\x00\x02\x00\x01 \x00\x00B\
      \x00\x00\x00\x01\x00\x00\x00\x00kernel/p.ko:\x00\
      \x00\x00\x00\x01\x00\x00\x00\x01kernel/w.ko: kernel/p.ko\x00\
      pw@\x00\x00\x0c\x00\x00\x00\x00\x00\x00\x00\x00\x00\x00\x00\x00\x00\x00\x00\x00\
      \x00\x00\x00\x00\x00\x00\x00\x00@\x00\x00!",
    NO_ALIASES,
    NO_KEYS,
    NO_SOFTDEPS,
    b"# Aliases for symbols, used by symbol_request().\nalias symbol:fa p\n",
    b"\xb0\x07\xf4W\x00\x02\x00\x01 \x00\x00\x1f\
      ymbol:fa\x00\x00\x00\x00\x01\x00\x00\x00\x00p\x00\
      ss\xc0\x00\x00\x0c",
    NO_KEYS,
    b"version kernel/w.ko fa kernel/p.ko\n",
];

/// Of a module that needs another weakly.
pub(crate) const WEAK_NEED: Files = [
    b"kernel/p.ko:\nkernel/w.ko: kernel/p.ko\n",
    b"\xb0\x07\xf4W\x00\x02\x00\x01 \x00\x00B\
      \x00\x00\x00\x01\x00\x00\x00\x00kernel/p.ko:\x00\
      \x00\x00\x00\x01\x00\x00\x00\x01kernel/w.ko: kernel/p.ko\x00\
      pw@\x00\x00\x0c\x00\x00\x00\x00\x00\x00\x00\x00\x00\x00\x00\x00\x00\x00\x00\x00\
      \x00\x00\x00\x00\x00\x00\x00\x00@\x00\x00!",
    NO_ALIASES,
    NO_KEYS,
    NO_SOFTDEPS,
    b"# Aliases for symbols, used by symbol_request().\nalias symbol:fa p\n",
    b"\xb0\x07\xf4W\x00\x02\x00\x01 \x00\x00\x1f\
      ymbol:fa\x00\x00\x00\x00\x01\x00\x00\x00\x00p\x00\
      ss\xc0\x00\x00\x0c",
    NO_KEYS,
    b"",
];

/// Of an export for modules with a free license, and a module without one that needs it.
pub(crate) const GPL_LINE: Files = [
    TWO_LINES,
    TWO_LINES_INDEX,
    NO_ALIASES,
    NO_KEYS,
    NO_SOFTDEPS,
    ONE_SYMBOL,
    ONE_SYMBOL_INDEX,
    NO_KEYS,
    b"gpl kernel/b.ko fa kernel/a.ko\n",
];

/// Of an export in a namespace, and a module that needs it and doesn't import that.
pub(crate) const NAMESPACE_LINE: Files = [
    TWO_LINES,
    TWO_LINES_INDEX,
    NO_ALIASES,
    NO_KEYS,
    NO_SOFTDEPS,
    ONE_SYMBOL,
    ONE_SYMBOL_INDEX,
    NO_KEYS,
    b"namespace kernel/b.ko fa kernel/a.ko\n",
];

/// Of `b`, and of an `a` that is an update.
pub(crate) const UPDATED: Files = [
    b"kernel/b.ko: updates/a.ko\nupdates/a.ko:\n",
    b"\xb0\x07\xf4W\x00\x02\x00\x01 \x00\x00D\
      \x00\x00\x00\x01\x00\x00\x00\x01updates/a.ko:\x00\
      \x00\x00\x00\x01\x00\x00\x00\x00kernel/b.ko: updates/a.ko\x00\
      ab@\x00\x00\x0c@\x00\x00\"",
    NO_ALIASES,
    NO_KEYS,
    NO_SOFTDEPS,
    ONE_SYMBOL,
    b"\xb0\x07\xf4W\x00\x02\x00\x01 \x00\x00\x1f\
      ymbol:fa\x00\x00\x00\x00\x01\x00\x00\x00\x01a\x00\
      ss\xc0\x00\x00\x0c",
    NO_KEYS,
    b"",
];

/// The same where the update exports nothing.
pub(crate) const UPDATED_BY_NOTHING: Files = [
    b"kernel/b.ko:\nupdates/a.ko:\n",
    b"\xb0\x07\xf4W\x00\x02\x00\x01 \x00\x007\
      \x00\x00\x00\x01\x00\x00\x00\x01updates/a.ko:\x00\
      \x00\x00\x00\x01\x00\x00\x00\x00kernel/b.ko:\x00\
      ab@\x00\x00\x0c@\x00\x00\"",
    NO_ALIASES,
    NO_KEYS,
    NO_SOFTDEPS,
    NO_SYMBOLS,
    NO_KEYS,
    NO_KEYS,
    b"missing kernel/b.ko fa\n",
];

/// Of `a`, and of a `b` that is an update.
pub(crate) const UPDATED_B: Files = [
    b"kernel/a.ko:\nupdates/b.ko: kernel/a.ko\n",
    b"\xb0\x07\xf4W\x00\x02\x00\x01 \x00\x00C\
      \x00\x00\x00\x01\x00\x00\x00\x00kernel/a.ko:\x00\
      \x00\x00\x00\x01\x00\x00\x00\x01updates/b.ko: kernel/a.ko\x00\
      ab@\x00\x00\x0c@\x00\x00!",
    NO_ALIASES,
    NO_KEYS,
    NO_SOFTDEPS,
    ONE_SYMBOL,
    ONE_SYMBOL_INDEX,
    NO_KEYS,
    b"",
];

/// Of no module, and one built-in name.
pub(crate) const BUILT_IN: Files = [
    b"",
    NO_KEYS,
    NO_ALIASES,
    NO_KEYS,
    NO_SOFTDEPS,
    NO_SYMBOLS,
    NO_KEYS,
    b"\xb0\x07\xf4W\x00\x02\x00\x01 \x00\x00\x18\
      _x\x00\x00\x00\x00\x01\x00\x00\x00\x00\x00\
      bb\xc0\x00\x00\x0c",
    b"",
];

/// Of two modules. One needs a symbol with a long name of the other.
pub(crate) const LONG_NAME: Files = [
    TWO_LINES,
    TWO_LINES_INDEX,
    NO_ALIASES,
    NO_KEYS,
    NO_SOFTDEPS,
    b"# Aliases for symbols, used by symbol_request().\n\
      alias symbol:xxxxxxxxxxxxxxxxxxxxxxxxxxxxxxxxxxxxxxxxxxxxxxxxxxxxxxxxxxxx a\n",
    b"\xb0\x07\xf4W\x00\x02\x00\x01 \x00\x00Y\
      ymbol:xxxxxxxxxxxxxxxxxxxxxxxxxxxxxxxxxxxxxxxxxxxxxxxxxxxxxxxxxxxx\x00\x00\x00\x00\x01\
      \x00\x00\x00\x00a\x00\
      ss\xc0\x00\x00\x0c",
    NO_KEYS,
    b"",
];

/// The same, but it needs another version.
pub(crate) const LONG_NAME_DIFFERS: Files = [
    TWO_LINES,
    TWO_LINES_INDEX,
    NO_ALIASES,
    NO_KEYS,
    NO_SOFTDEPS,
    b"# Aliases for symbols, used by symbol_request().\n\
      alias symbol:xxxxxxxxxxxxxxxxxxxxxxxxxxxxxxxxxxxxxxxxxxxxxxxxxxxxxxxxxxxx a\n",
    b"\xb0\x07\xf4W\x00\x02\x00\x01 \x00\x00Y\
      ymbol:xxxxxxxxxxxxxxxxxxxxxxxxxxxxxxxxxxxxxxxxxxxxxxxxxxxxxxxxxxxx\x00\x00\x00\x00\x01\
      \x00\x00\x00\x00a\x00\
      ss\xc0\x00\x00\x0c",
    NO_KEYS,
    b"version kernel/b.ko xxxxxxxxxxxxxxxxxxxxxxxxxxxxxxxxxxxxxxxxxxxxxxxxxxxxxxxxxxxx \
      kernel/a.ko\n",
];

/// Of a file system and its two helpers.
pub(crate) const FILE_SYSTEM_FILES: Files = [
    b"kernel/fs/mbcache.ko:\n\
      kernel/fs/ext4/ext4.ko: kernel/fs/jbd2/jbd2.ko kernel/fs/mbcache.ko\n\
      kernel/fs/jbd2/jbd2.ko:\n",
    b"\xb0\x07\xf4W\x00\x02\x00\x01 \x00\x00\xa5\
      xt4\x00\x00\x00\x00\x01\
      \x00\x00\x00\x01kernel/fs/ext4/ext4.ko: kernel/fs/jbd2/jbd2.ko kernel/fs/mbcache.ko\x00\
      bd2\x00\x00\x00\x00\x01\x00\x00\x00\x02kernel/fs/jbd2/jbd2.ko:\x00\
      bcache\x00\x00\x00\x00\x01\x00\x00\x00\x00kernel/fs/mbcache.ko:\x00\
      em\xc0\x00\x00\x0c\x00\x00\x00\x00\x00\x00\x00\x00\x00\x00\x00\x00\x00\x00\x00\x00\
      \xc0\x00\x00\\\x00\x00\x00\x00\x00\x00\x00\x00\xc0\x00\x00\x80",
    b"# Aliases extracted from modules themselves.\nalias fs-ext4 ext4\n",
    b"\xb0\x07\xf4W\x00\x02\x00\x01 \x00\x00 \
      s_ext4\x00\x00\x00\x00\x01\x00\x00\x00\x01ext4\x00\
      ff\xc0\x00\x00\x0c",
    b"# Soft dependencies extracted from modules themselves.\nsoftdep ext4 pre: crc32c\n",
    b"# Aliases for symbols, used by symbol_request().\n\
      alias symbol:mb_cache_create mbcache\n\
      alias symbol:jbd2_journal_start jbd2\n",
    b"\xb0\x07\xf4W\x00\x02\x00\x01 \x00\x00c\
      bd2_journal_start\x00\x00\x00\x00\x01\x00\x00\x00\x02jbd2\x00\
      b_cache_create\x00\x00\x00\x00\x01\x00\x00\x00\x00mbcache\x00\
      ymbol:\x00jm\xc0\x00\x00\x0c\x00\x00\x00\x00\x00\x00\x00\x00\xc0\x00\x00+ss\xa0\x00\x00J",
    NO_KEYS,
    b"",
];

/// Of the two over a kernel that doesn't export `printk`.
pub(crate) const PRINTK_MISSING: Files = [
    TWO_LINES,
    TWO_LINES_INDEX,
    NO_ALIASES,
    NO_KEYS,
    NO_SOFTDEPS,
    ONE_SYMBOL,
    ONE_SYMBOL_INDEX,
    NO_KEYS,
    b"missing kernel/a.ko printk\n",
];

/// Of a module with a device node.
pub(crate) const ONE_NODE_FILES: Files = [
    b"kernel/fuse.ko:\n",
    b"\xb0\x07\xf4W\x00\x02\x00\x01 \x00\x00(use\x00\x00\x00\x00\x01\x00\x00\x00\x00kernel\
      /fuse.ko:\x00ff\xc0\x00\x00\x0c",
    b"# Aliases extracted from modules themselves.\n\
      alias devname:fuse fuse\n\
      alias char-major-10-229 fuse\n",
    b"\xb0\x07\xf4W\x00\x02\x00\x01 \x00\x00Char_major_10_229\x00\x00\x00\x00\x01\x00\x00\
      \x00\x00fuse\x00evname:fuse\x00\x00\x00\x00\x01\x00\x00\x00\x00fuse\x00cd\xc0\x00\
      \x00\x0c\xc0\x00\x00*",
    NO_SOFTDEPS,
    NO_SYMBOLS,
    NO_KEYS,
    NO_KEYS,
    b"",
];

/// Of three modules, two of them with device nodes.
pub(crate) const TWO_NODES_FILES: Files = [
    b"kernel/a/loop.ko:\n\
      kernel/b/tun.ko:\n\
      kernel/c/fuse.ko:\n",
    b"\xb0\x07\xf4W\x00\x02\x00\x01 \x00\x00duse\x00\x00\x00\x00\x01\x00\x00\x00\x02kernel\
      /c/fuse.ko:\x00oop\x00\x00\x00\x00\x01\x00\x00\x00\x00kernel/a/loop.ko:\x00un\x00\
      \x00\x00\x00\x01\x00\x00\x00\x01kernel/b/tun.ko:\x00ft\xc0\x00\x00\x0c\x00\x00\x00\
      \x00\x00\x00\x00\x00\x00\x00\x00\x00\x00\x00\x00\x00\x00\x00\x00\x00\xc0\x00\x00*\
      \x00\x00\x00\x00\x00\x00\x00\x00\x00\x00\x00\x00\x00\x00\x00\x00\x00\x00\x00\x00\x00\
      \x00\x00\x00\x00\x00\x00\x00\xc0\x00\x00H",
    b"# Aliases extracted from modules themselves.\n\
      alias block-major-7-* loop\n\
      alias devname:loop-control loop\n\
      alias block-major-007-0 loop\n\
      alias char-major-10-237 loop\n\
      alias devname:loop0 loop\n\
      alias devname:net/tun tun\n\
      alias char-major-10-4294967296 tun\n\
      alias devname:fuse fuse\n\
      alias char-major-10-229 fuse\n",
    b"\xb0\x07\xf4W\x00\x02\x00\x01 \x00\x01\xf007_0\x00\x00\x00\x00\x01\x00\x00\x00\x00lo\
      op\x00_*\x00\x00\x00\x00\x01\x00\x00\x00\x00loop\x00lock_major_\x0007\xc0\x00\x00\
      \x0c\x00\x00\x00\x00\x00\x00\x00\x00\x00\x00\x00\x00\x00\x00\x00\x00\x00\x00\x00\x00\
      \x00\x00\x00\x00\xc0\x00\x00\x1e9\x00\x00\x00\x00\x01\x00\x00\x00\x02fuse\x007\x00\
      \x00\x00\x00\x01\x00\x00\x00\x00loop\x0023\xc0\x00\x00\\\xc0\x00\x00k294967296\x00\
      \x00\x00\x00\x01\x00\x00\x00\x01tun\x00har_major_10_\x0024 \x00\x00z\x00\x00\x00\x00\
      \xc0\x00\x00\x84use\x00\x00\x00\x00\x01\x00\x00\x00\x02fuse\x00\x00\x00\x00\x01\x00\
      \x00\x00\x00loop\x00control\x00\x00\x00\x00\x01\x00\x00\x00\x00loop\x00oop\x000_@\
      \x00\x00\xc7\x00\x00\x00\x00\x00\x00\x00\x00\x00\x00\x00\x00\x00\x00\x00\x00\x00\x00\
      \x00\x00\x00\x00\x00\x00\x00\x00\x00\x00\x00\x00\x00\x00\x00\x00\x00\x00\x00\x00\x00\
      \x00\x00\x00\x00\x00\x00\x00\x00\x00\x00\x00\x00\x00\x00\x00\x00\x00\x00\x00\x00\x00\
      \x00\x00\x00\x00\x00\x00\x00\x00\x00\x00\x00\x00\x00\x00\x00\x00\x00\x00\x00\x00\x00\
      \x00\x00\x00\x00\x00\x00\x00\x00\x00\x00\x00\x00\x00\x00\x00\x00\x00\x00\x00\x00\x00\
      \x00\x00\x00\x00\x00\x00\x00\x00\x00\x00\x00\x00\x00\x00\x00\x00\x00\x00\x00\x00\x00\
      \x00\x00\x00\x00\x00\x00\x00\x00\x00\x00\x00\x00\x00\x00\x00\x00\x00\x00\x00\x00\x00\
      \x00\x00\x00\x00\x00\x00\x00\x00\x00\x00\x00\x00\x00\x00\x00\x00\x00\x00\x00\x00\x00\
      \x00\x00\x00\x00\x00\x00\x00\x00\x00\x00\x00\x00\x00\x00\x00\x00\x00\x00\x00\xc0\x00\
      \x00\xd4et/tun\x00\x00\x00\x00\x01\x00\x00\x00\x01tun\x00evname:\x00fn\xc0\x00\x00\
      \xb6\x00\x00\x00\x00\x00\x00\x00\x00\x00\x00\x00\x00\x00\x00\x00\x00\x00\x00\x00\x00\
      \xa0\x00\x00\xe9\x00\x00\x00\x00\xc0\x00\x01\xafbd\xa0\x00\x00.\xa0\x00\x00\x9a\xa0\
      \x00\x01\xc2",
    NO_SOFTDEPS,
    NO_SYMBOLS,
    NO_KEYS,
    NO_KEYS,
    b"",
];
