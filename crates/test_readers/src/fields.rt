// The fields of a `.modinfo` section.
use km_names::Texts;
use modinfo_fields::{FieldList, field_values, fields};
use std::alloc::Global;
use std::process::Abort;

/// A section with empty pieces, a piece that is only a key, a value with `=`, and a last piece
/// without NUL.
static SECTION: &[u8] = b"license=GPL\0\0\0lone\0author=A=B\0alias=a\0alias=b";

/// Its fields.
static FIELDS: [(&[u8], &[u8]); 5] = [
    (b"license", b"GPL"),
    (b"lone", b""),
    (b"author", b"A=B"),
    (b"alias", b"a"),
    (b"alias", b"b"),
];

/// Keys that are alike, and the values of each.
static VALUES: [(&[u8], &[&[u8]]); 2] = [(b"alias", &[b"a", b"b"]), (b"ali", &[])];

fn fields_of(rt: &impl Abort, alloc: Global, bytes: &[u8]) -> FieldList {
    fields(alloc, bytes).expect(rt, "fields")
}

/// Fields of two keys that are alike.
static ALIASES: &[u8] = b"alias=a\0alia=c\0alias=b";

/// Returns the values of a key, by the list of all fields.
fn values_of_list(rt: &impl Abort, alloc: Global, key: &[u8]) -> Texts {
    let list = fields_of(rt, alloc, ALIASES);
    list.values_of(alloc, key).expect(rt, "values")
}

/// Returns the values of a key, without such a list.
fn values_of(rt: &impl Abort, alloc: Global, key: &[u8]) -> Texts {
    field_values(alloc, ALIASES, key).expect(rt, "values")
}

fn same(rt: &impl Abort, got: &[u8], want: &[u8]) {
    assert_eq!(rt; got, want);
}

fn same_length(rt: &impl Abort, got: usize, want: usize) {
    assert_eq!(rt; got, want);
}

fn expect_values(rt: &impl Abort, values: &Texts, want: &[&[u8]]) {
    same_length(rt, values.len(), want.len());
    for (value, want) in values.as_slice().iter().zip(want) {
        same(rt, value.as_bytes(), want);
    }
}

fn expect_fields(rt: &impl Abort, list: &FieldList) {
    same_length(rt, list.len(), FIELDS.len());
    for (i, (key, value)) in FIELDS.iter().enumerate() {
        let field = list.get(i).expect(rt, "a field");
        same(rt, field.key.as_bytes(), key);
        same(rt, field.value.as_bytes(), value);
    }
}

#[test]
fn pieces_between_nuls_are_fields(rt: HostRuntime) {
    let alloc = rt.alloc();
    expect_fields(&rt, &fields_of(&rt, alloc, SECTION));
    for (key, want) in &VALUES {
        expect_values(&rt, &values_of(&rt, alloc, key), want);
        expect_values(&rt, &values_of_list(&rt, alloc, key), want);
    }
}
