// Options of parameters that are written out.
use crate::param_row::{Answer, Row, expect_changed};
use Answer::{Digest, Refused, Written};

/// Two parameters, of 4 bytes and of one.
static TWO: [Row; 2] = [(b"depth", b"int"), (b"raw", b"bool")];

/// Options of two parameters: the last word counts, words that name no parameter and those
/// behind `--` don't.
static OPTIONS: [(&[u8], Answer); 13] = [
    (
        b"depth=3 raw",
        Written(2, b"\x03\0\0\0\0\0\0\0\x01\0\0\0\0\0\0\0depth\0raw\0"),
    ),
    (
        b"depth=3 raw",
        Digest("6185a0327b828bf8b24b4f547689e557ccece9e8bd678b6b9fd183a352e6e744"),
    ),
    (
        b"depth=-1",
        Digest("99651a817da3400677c474b464b43e5c387c1c2df24d4ccc469a2bdd65d7f516"),
    ),
    (
        b"",
        Digest("6151820ecdeb6bb07844315ce71ced3fb4f4185f89f80f3e10b2155caf47a89c"),
    ),
    (
        b"depth=0x10 nosuch=1 depth=-1",
        Written(1, b"\xff\xff\xff\xff\0"),
    ),
    (b"  depth=1   depth=2 ", Written(1, b"\x02\0\0\0")),
    (
        b"depth=1 -- depth=2 raw",
        Written(1, b"\x01\0\0\0\0\0\0\0\0"),
    ),
    (b"-- depth=08", Written(0, b"\0\0\0\0")),
    (b"depth=1=2", Refused(b"bad value of depth")),
    (b"depth=08", Refused(b"bad value of depth")),
    (b"depth", Refused(b"bad value of depth")),
    (b"depth=1 depth=x raw=x", Refused(b"bad value of depth")),
    (b"raw= depth=x", Refused(b"bad value of raw")),
];

/// Parameters with `-` in their names, and with types that are not known.
static NAMED: [Row; 4] = [
    (b"max-size", b"byte"),
    (b"min_size", b"byte"),
    (b"text", b"charp"),
    (b"none", b""),
];

/// Names and their texts, with `-` for `_`, and types that aren't known.
static NAMES: [(&[u8], Answer); 6] = [
    (
        b"max_size=1 min-size=2",
        Written(2, b"\x01\0\0\0\0\0\0\0\x02"),
    ),
    (b"max-size=3 max_size=4", Written(1, b"\x04\0")),
    (b"max=1 max-size-=1 =1", Written(0, b"\0")),
    (b"max_size=256", Refused(b"bad value of max-size")),
    (b"text=a", Refused(b"unknown type of text")),
    (b"none", Refused(b"unknown type of none")),
];

/// Parameters of each type of numbers.
static TYPED: [Row; 8] = [
    (b"a", b"byte"),
    (b"b", b"ushort"),
    (b"c", b"uint"),
    (b"d", b"ulong"),
    (b"e", b"ullong"),
    (b"f", b"short"),
    (b"g", b"int"),
    (b"h", b"long"),
];

/// Each type at the edges of its range.
static EDGES: [(&[u8], Answer); 21] = [
    (
        b"a=255 b=0xffff c=4294967295 d=18446744073709551615 e=01777777777777777777777",
        Written(
            5,
            b"\xff\0\0\0\0\0\0\0\xff\xff\0\0\0\0\0\0\xff\xff\xff\xff\0\0\0\0\
              \xff\xff\xff\xff\xff\xff\xff\xff\xff\xff\xff\xff\xff\xff\xff\xff",
        ),
    ),
    (b"a=256", Refused(b"bad value of a")),
    (b"b=65536", Refused(b"bad value of b")),
    (b"c=0x100000000", Refused(b"bad value of c")),
    (b"d=18446744073709551616", Refused(b"bad value of d")),
    (b"e=02000000000000000000000", Refused(b"bad value of e")),
    (b"a=-1", Refused(b"bad value of a")),
    (b"f=32768", Refused(b"bad value of f")),
    (b"f=-32769", Refused(b"bad value of f")),
    (b"g=2147483648", Refused(b"bad value of g")),
    (b"g=-2147483649", Refused(b"bad value of g")),
    (b"h=9223372036854775808", Refused(b"bad value of h")),
    (b"h=-9223372036854775809", Refused(b"bad value of h")),
    (
        b"f=-32768 g=-2147483648 h=-9223372036854775808",
        Written(3, b"\0"),
    ),
    (b"g=+-1", Refused(b"bad value of g")),
    (b"g=-+1", Refused(b"bad value of g")),
    (b"g=0x", Refused(b"bad value of g")),
    (b"g=0X1g", Refused(b"bad value of g")),
    (b"a=+017", Written(1, b"\x0f")),
    (b"a=0Xa", Written(1, b"\x0a")),
    (b"a=0 a=00", Written(1, b"\0")),
];

/// Parameters of four such types.
static NUMBERED: [Row; 4] = [
    (b"f", b"short"),
    (b"g", b"int"),
    (b"h", b"long"),
    (b"d", b"ulong"),
];

/// The forms of numbers: signs, prefixes and leading zeros, and what comes closest to them.
static FORMS: [(&[u8], Answer); 29] = [
    (
        b"f=32767 g=2147483647 h=9223372036854775807 d=0xffffffffffffffff",
        Written(
            4,
            b"\xff\x7f\0\0\0\0\0\0\xff\xff\xff\x7f\0\0\0\0\xff\xff\xff\xff\xff\xff\xff\x7f\
              \xff\xff\xff\xff\xff\xff\xff\xff",
        ),
    ),
    (b"f=-0x8000", Written(1, b"\0\x80\0")),
    (b"f=-0100000", Written(1, b"\0\x80\0")),
    (b"f=-1 f=-0", Written(1, b"\0\0\0")),
    (b"f=+0", Written(1, b"\0")),
    (b"f=+0x7fff", Written(1, b"\xff\x7f\0")),
    (b"f=0XaB", Written(1, b"\xab\0\0")),
    (b"f=00000000000000000000000000000017", Written(1, b"\x0f\0")),
    (
        b"f=0x00000000000000000000000000000017",
        Written(1, b"\x17\0"),
    ),
    (b"f=010 f=10", Written(1, b"\x0a\0")),
    (b"f=010", Written(1, b"\x08\0")),
    (b"f=08", Refused(b"bad value of f")),
    (b"f=0779", Refused(b"bad value of f")),
    (b"f=1a", Refused(b"bad value of f")),
    (b"f=0xg", Refused(b"bad value of f")),
    (b"f=0x-1", Refused(b"bad value of f")),
    (b"f=x1", Refused(b"bad value of f")),
    (b"f=+", Refused(b"bad value of f")),
    (b"f=-", Refused(b"bad value of f")),
    (b"f=--1", Refused(b"bad value of f")),
    (b"f=++1", Refused(b"bad value of f")),
    (b"f=", Refused(b"bad value of f")),
    (b"f=1\n", Refused(b"bad value of f")),
    (b"f=-0x8001", Refused(b"bad value of f")),
    (b"d=-0", Refused(b"bad value of d")),
    (b"d=99999999999999999999", Refused(b"bad value of d")),
    (b"d=0x10000000000000000", Refused(b"bad value of d")),
    (
        b"d=10000000000000000000",
        Written(
            1,
            b"\0\0\0\0\0\0\0\0\0\0\0\0\0\0\0\0\0\0\0\0\0\0\0\0\0\0\xe8\x89\x04\x23\xc7\x8a",
        ),
    ),
    (b"h=99999999999999999999", Refused(b"bad value of h")),
];

/// A truth value.
static RAW: [Row; 1] = [(b"raw", b"bool")];

/// Truth values.
static TRUTH: [(&[u8], Answer); 19] = [
    (b"raw", Written(1, b"\x01\0")),
    (b"raw=yes", Written(1, b"\x01")),
    (b"raw=Y", Written(1, b"\x01")),
    (b"raw=1", Written(1, b"\x01")),
    (b"raw=10", Written(1, b"\x01")),
    (b"raw=on", Written(1, b"\x01")),
    (b"raw=oNe", Written(1, b"\x01")),
    (b"raw raw=0", Written(1, b"\0")),
    (b"raw raw=no", Written(1, b"\0")),
    (b"raw raw=Off", Written(1, b"\0")),
    (b"raw=2", Refused(b"bad value of raw")),
    (b"raw=-1", Refused(b"bad value of raw")),
    (b"raw=true", Refused(b"bad value of raw")),
    (b"raw=ON", Written(1, b"\x01")),
    (b"raw=raw raw=oF", Refused(b"bad value of raw")),
    (b"raw raw=oF", Written(1, b"\0")),
    (b"raw=N", Written(1, b"\0")),
    (b"raw=o", Refused(b"bad value of raw")),
    (b"raw=", Refused(b"bad value of raw")),
];

#[test]
fn options_have_their_answers(rt: HostRuntime) {
    expect_changed(&rt, rt.alloc(), &TWO, &[], &OPTIONS);
    expect_changed(&rt, rt.alloc(), &NAMED, &[], &NAMES);
    expect_changed(&rt, rt.alloc(), &TYPED, &[], &EDGES);
    expect_changed(&rt, rt.alloc(), &NUMBERED, &[], &FORMS);
    expect_changed(&rt, rt.alloc(), &RAW, &[], &TRUTH);
}
