use byte_order::compare;
use std::cmp::Ordering;

// The order of texts in a dictionary of bytes, by hand.
const RISING: [&str; 12] = [
    "",
    "a",
    "ab",
    "abcdefg",
    "abcdefgh",
    "abcdefgha",
    "abcdefghijklmnop",
    "abcdefghijklmnopq",
    "abcdefghijklmnoq",
    "abcdefgi",
    "abcdefgihhhhhhhh",
    "b",
];

#[test]
fn strings_in_their_order(rt: HostRuntime) {
    for (at, one) in RISING.iter().enumerate() {
        for (place, other) in RISING.iter().enumerate() {
            assert!(rt; compare(one.as_bytes(), other.as_bytes()) == at.cmp(&place));
        }
    }
}

#[test]
fn bytes_in_their_order(rt: HostRuntime) {
    assert!(rt; compare(&[0x7F; 9], &[0x80; 8]) == Ordering::Less);
    assert!(rt; compare(&[0; 8], &[0; 9]) == Ordering::Less);
}
