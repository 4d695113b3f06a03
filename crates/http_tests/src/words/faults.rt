use super::*;

/// The faults of targets. `None` is a target without one.
const TABLE: &[(&[u8], Option<WordFault>)] = &[
    // Each fault alone.
    (b"", Some(WordFault::NotPath)),
    (b"*", Some(WordFault::NotPath)),
    (b"http://h/auth", Some(WordFault::NotPath)),
    (b"?/auth", Some(WordFault::NotPath)),
    (b"/swift/v1/AUTH_acme/box/%G1", Some(WordFault::BadEscape)),
    (b"/swift/v1/AUTH_acme/%1G/k", Some(WordFault::BadEscape)),
    (b"/swift/v1/AUTH_%/box", Some(WordFault::BadEscape)),
    (b"/%4", Some(WordFault::BadEscape)),
    (b"/x/%G1", Some(WordFault::BadEscape)),
    (b"/a/b/c/d/e/f%G1", Some(WordFault::BadEscape)),
    (b"/swift/v1/AUTH_acme/box/%FF", Some(WordFault::BadUtf8)),
    (b"/swift/v1/AUTH_acme/box/%C3/%A4", Some(WordFault::BadUtf8)),
    (b"/x/%FF", Some(WordFault::BadUtf8)),
    (b"/swift/v1/AUTH_acme//k", Some(WordFault::BadName)),
    (b"/swift/v1/AUTH_acme//", Some(WordFault::BadName)),
    (b"/swift/v1/AUTH_acme/b%00x", Some(WordFault::BadName)),
    (b"/swift/v1/AUTH_acme/box/%00", Some(WordFault::BadName)),
    (b"/auth?a=%", Some(WordFault::BadEscape)),
    (b"/auth?%4=a", Some(WordFault::BadEscape)),
    (b"/auth?a=%C3", Some(WordFault::BadUtf8)),
    (b"/x?limit=x", Some(WordFault::BadLimit)),
    (b"/auth?limit", Some(WordFault::BadLimit)),
    (b"/auth?limit=", Some(WordFault::BadLimit)),
    (b"/auth?limit=+5", Some(WordFault::BadLimit)),
    (b"/auth?limit=%2B5", Some(WordFault::BadLimit)),
    (b"/auth?limit=0000000000", Some(WordFault::BadLimit)),
    (b"/auth?format=xml", Some(WordFault::BadFormat)),
    (b"/auth?format", Some(WordFault::BadFormat)),
    (b"/auth?format=JSON", Some(WordFault::BadFormat)),
    // No fault where a name stands elsewhere, or where a later value counts.
    (b"/x//%00", None),
    (b"/swift/v1/AUTH_%00", None),
    (b"/auth?a=%00", None),
    (b"/auth?limit=x&limit=5&format=xml&format=json", None),
    // Two at once: the first counts.
    (b"%G1", Some(WordFault::NotPath)),
    (b"/swift/v1/AUTH_acme/%FF%G1", Some(WordFault::BadEscape)),
    (b"/swift/v1/AUTH_acme/%FF/%G1", Some(WordFault::BadUtf8)),
    (b"/swift/v1/AUTH_acme/%00%FF", Some(WordFault::BadUtf8)),
    (b"/swift/v1/AUTH_acme/%00/%G1", Some(WordFault::BadName)),
    (b"/swift/v1/AUTH_acme//?a=%G1", Some(WordFault::BadName)),
    (b"/%FF?a=%G1", Some(WordFault::BadUtf8)),
    (b"/auth?%FF=%G1", Some(WordFault::BadUtf8)),
    (b"/auth?a=%FF&b=%G1", Some(WordFault::BadUtf8)),
    (b"/auth?limit=x&a=%G1", Some(WordFault::BadEscape)),
    (b"/auth?format=xml&limit=x", Some(WordFault::BadLimit)),
];

#[test]
fn the_first_fault_is_answered(rt: HostRuntime) -> Result<(), Fail> {
    let alloc = rt.alloc();
    for (target, want) in TABLE {
        let fault = read_target(alloc, target).err();
        assert_eq!(rt; fault, *want);
    }
    Ok(())
}
