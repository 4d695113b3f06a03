use super::*;

#[test]
fn places_name_a_container_and_an_object(rt: HostRuntime) -> Result<(), Fail> {
    let alloc = rt.alloc();
    let table: [(&[u8], &str, &str); 9] = [
        (b"box/k", "box", "k"),
        (b"/box/k", "box", "k"),
        (b"box/a/b", "box", "a/b"),
        (b"/box/a%2Fb/", "box", "a/b/"),
        (b"box//", "box", "/"),
        (b"b%2Fx/k", "b/x", "k"),
        (b"%2Fbox/k", "/box", "k"),
        (b"box/a?b&c=d+e", "box", "a?b&c=d+e"),
        (b"_box/%C3%A4", "_box", "\u{e4}"),
    ];
    for (value, container, object) in table {
        let place = read_place(alloc, value)?;
        assert_eq!(rt; place.0.as_str(), container);
        assert_eq!(rt; place.1.as_str(), object);
    }
    Ok(())
}

#[test]
fn the_first_fault_of_a_place_is_answered(rt: HostRuntime) -> Result<(), Fail> {
    let alloc = rt.alloc();
    let table: [(&[u8], WordFault); 17] = [
        // Each fault alone.
        (b"", WordFault::NotPath),
        (b"/", WordFault::NotPath),
        (b"box", WordFault::NotPath),
        (b"/box", WordFault::NotPath),
        (b"box%2Fk", WordFault::NotPath),
        (b"box/%4", WordFault::BadEscape),
        (b"%G1/k", WordFault::BadEscape),
        (b"box/%FF", WordFault::BadUtf8),
        (b"%FF/k", WordFault::BadUtf8),
        (b"box/", WordFault::BadName),
        (b"//k", WordFault::BadName),
        (b"box/%00", WordFault::BadName),
        (b"b%00/k", WordFault::BadName),
        // Two at once: the first counts.
        (b"%G1", WordFault::NotPath),
        (b"%FF%G1/k", WordFault::BadEscape),
        (b"%FF/%G1", WordFault::BadUtf8),
        (b"%00/%FF", WordFault::BadName),
    ];
    for (value, want) in table {
        assert_eq!(rt; read_place(alloc, value).err(), Some(want));
    }
    Ok(())
}
