// Tables and places that are refused, in objects of which bytes are changed.
use crate::param_row::{Answer, Change, Row, expect_changed};
use Answer::{Refused, Written};

/// Two parameters, of 4 bytes and of one.
///
/// Their object has from its byte 216 on the four relocations of `__param`, of 24 bytes each: of
/// the name and of the value of `depth`, and of those of `raw`. The last 8 bytes of a relocation
/// are its addend, a place in `.data`. That section begins at 4096 in an image of 8192 bytes, and
/// `__param` at 0.
const TWO: [Row; 2] = [(b"depth", b"int"), (b"raw", b"bool")];

/// Changes of the object, with options and what they result in.
type ChangedRow = (&'static [Change], &'static [(&'static [u8], Answer)]);

static CHANGED: [ChangedRow; 8] = [
    // The name of `raw` begins where the image ends, and just before its end.
    (
        &[(280, 0x00), (281, 0x10)],
        &[
            (b"", Refused(b"bad parameter table at entry 1")),
            (b"depth=08", Refused(b"bad parameter table at entry 1")),
        ],
    ),
    (
        &[(280, 0xff), (281, 0x0f)],
        &[
            (b"raw", Written(0, b"\0")),
            (b"=1", Refused(b"unknown type of ")),
        ],
    ),
    // `__param` has 81 bytes.
    (
        &[(592, 81)],
        &[(b"", Refused(b"bad parameter table at entry 2"))],
    ),
    // The value of `raw` is the last byte of that of `depth`, and the byte after it.
    (
        &[(304, 3)],
        &[
            (b"raw raw=0", Written(1, b"\0")),
            (b"depth=1 depth=2", Written(1, b"\x02\0\0\0")),
            (b"depth=1 raw", Refused(b"bad place of raw")),
            (b"raw depth=1", Refused(b"bad place of depth")),
            (b"raw depth=x", Refused(b"bad value of depth")),
        ],
    ),
    (
        &[(304, 4)],
        &[(b"depth=-1 raw=0", Written(2, b"\xff\xff\xff\xff\0"))],
    ),
    // The value of `depth` ends where the image does, and a byte past that.
    (
        &[(256, 0xfc), (257, 0x0f)],
        &[(b"depth=1", Written(1, b"\0\0\0\0"))],
    ),
    (
        &[(256, 0xfd), (257, 0x0f)],
        &[
            (b"depth=1", Refused(b"bad place of depth")),
            (b"raw", Written(1, b"\0\0\0\0\0\0\0\0\x01")),
        ],
    ),
    // The value of `depth` is at 8 of `__param`, where no relocation is.
    (
        &[
            (256, 0x08),
            (257, 0xf0),
            (258, 0xff),
            (259, 0xff),
            (260, 0xff),
            (261, 0xff),
            (262, 0xff),
            (263, 0xff),
        ],
        &[
            (b"depth=1", Refused(b"bad place of depth")),
            (b"depth", Refused(b"bad value of depth")),
        ],
    ),
];

/// Checks the faults of a table, and of places.
#[test]
fn tables_and_places_are_tested(rt: HostRuntime) {
    for (changes, answers) in &CHANGED {
        expect_changed(&rt, rt.alloc(), &TWO, changes, answers);
    }
}
