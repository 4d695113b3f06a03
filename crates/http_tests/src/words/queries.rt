use super::*;

/// A target, and the texts that its query asks for: `marker`, `end_marker`, `prefix`, `delimiter`.
type Texts<'a> = (&'a [u8], [&'a str; 4]);

/// Whether a target asks for these texts.
fn asks_for(alloc: Global, target: &[u8], want: &[&str; 4]) -> Result<bool, Fail> {
    let (named, asked) = read_target(alloc, target)?;
    let [marker, end_marker, prefix, delimiter] = want;
    let right = asked.marker.is(marker)
        && asked.end_marker.is(end_marker)
        && asked.prefix.is(prefix)
        && asked.delimiter.is(delimiter);
    drop(asked);
    drop(named);
    Ok(right)
}

const LAST_VALUES: &[Texts<'_>] = &[
    (b"/auth", ["", "", "", ""]),
    (b"/auth?", ["", "", "", ""]),
    (b"/auth?marker=a", ["a", "", "", ""]),
    (b"/auth?end_marker=a", ["", "a", "", ""]),
    (b"/auth?prefix=a", ["", "", "a", ""]),
    (b"/auth?delimiter=/", ["", "", "", "/"]),
    (
        b"/auth?delimiter=d&prefix=c&end_marker=b&marker=a",
        ["a", "b", "c", "d"],
    ),
    // A `+` in a value is a blank, and an escaped one is a `+`.
    (b"/auth?marker=+a+%2B", [" a +", "", "", ""]),
    (b"/auth?mar+ker=a", ["", "", "", ""]),
    // The last value counts, also an empty one.
    (b"/auth?prefix=a&marker=b&prefix=c", ["b", "", "c", ""]),
    (b"/auth?prefix=a&prefix", ["", "", "", ""]),
    // Only `&` divides, and only the first `=` and `?`.
    (b"/auth?prefix=a;marker=b", ["", "", "a;marker=b", ""]),
    (b"/auth?&&prefix=a=b?c&&", ["", "", "a=b?c", ""]),
    (b"/auth?prefix=a%26marker%3Db", ["", "", "a&marker=b", ""]),
    // Names are decoded, and unknown ones dropped; their case counts.
    (b"/auth?%70refix=%C3%A4", ["", "", "\u{e4}", ""]),
    (b"/auth?Prefix=a&path=b&=c&d", ["", "", "", ""]),
];

#[test]
fn texts_are_the_last_values_sent(rt: HostRuntime) -> Result<(), Fail> {
    for (target, want) in LAST_VALUES {
        assert!(rt;
            asks_for(rt.alloc(), target, want)?,
            "where {want:?} is wanted"
        );
    }
    Ok(())
}

#[test]
fn limits_are_at_most_ten_thousand(rt: HostRuntime) -> Result<(), Fail> {
    let alloc = rt.alloc();
    let table: [(&[u8], u32); 10] = [
        (b"/auth", 10000),
        (b"/auth?limit=0", 0),
        (b"/auth?limit=1", 1),
        (b"/auth?limit=%31%30", 10),
        (b"/auth?limit=000000005", 5),
        (b"/auth?limit=9999", 9999),
        (b"/auth?limit=10000", 10000),
        (b"/auth?limit=10001", 10000),
        (b"/auth?limit=999999999", 10000),
        (b"/auth?limit=7&limit=8", 8),
    ];
    for (target, want) in table {
        let (_, asked) = read_target(alloc, target)?;
        assert_eq!(rt; asked.limit, want);
    }
    Ok(())
}

#[test]
fn formats_are_json_or_plain(rt: HostRuntime) -> Result<(), Fail> {
    let alloc = rt.alloc();
    let table: [(&[u8], bool); 5] = [
        (b"/auth", false),
        (b"/auth?format=json", true),
        (b"/auth?format=plain", false),
        (b"/auth?format=json&format=plain", false),
        (b"/auth?format=xml&format=%6Ason", true),
    ];
    for (target, want) in table {
        let (_, asked) = read_target(alloc, target)?;
        assert_eq!(rt; asked.json, want);
    }
    Ok(())
}
