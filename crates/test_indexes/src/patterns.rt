// Patterns.
use glob_match::matches;
use std::alloc::{AllocError, Global};
use std::process::Abort;

/// Patterns of each kind of element, texts, and whether they match.
static CASES: [(&str, &str, bool); 14] = [
    ("*", "", true),
    ("a[b", "a[b", false),
    ("[]x", "x", false),
    ("[!]", "x", true),
    ("[a-]", "-", true),
    ("[c-a]", "b", false),
    ("*a*b", "xaab", true),
    ("?", "", false),
    ("pci_x:v0000[!a-f]d*", "pci_x:v00001d99", true),
    ("pci_x:v0000[!a-f]d*", "pci_x:v0000ad99", false),
    ("[b-d]", "d", true),
    ("[ab!]", "!", true),
    ("\\*", "\\x", true),
    ("", "", true),
];

/// Returns the one pattern on which a search with many places to go back to is slow: `*a` 200
/// times.
fn many_stars(alloc: Global) -> Result<Vec<u8>, AllocError> {
    let mut pattern = Vec::new(alloc);
    for _ in 0..200 {
        pattern.extend_from_slice(b"*a")?;
    }
    Ok(pattern)
}

/// Returns 4000 bytes `a` and one `b`.
fn letters_and_another(alloc: Global) -> Result<Vec<u8>, AllocError> {
    let mut text = vec![in alloc; b'a'; 4000]?;
    text.push(b'b')?;
    Ok(text)
}

/// Checks that a long search ends.
fn expect_no_match(rt: &impl Abort, alloc: Global) {
    let pattern = many_stars(alloc).expect(rt, "a pattern");
    let text = letters_and_another(alloc).expect(rt, "a text");
    assert!(rt; !matches(&pattern, &text));
}

#[test]
fn patterns_match_as_described(rt: HostRuntime) {
    for (pattern, text, want) in &CASES {
        let got = matches(pattern.as_bytes(), text.as_bytes());
        assert!(rt; got == *want, "{pattern} {text}");
    }
    expect_no_match(&rt, rt.alloc());
}
