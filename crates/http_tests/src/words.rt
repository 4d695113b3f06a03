// Targets and places by the table, with the faults that come first.
mod callers;
mod faults;
mod names;
mod places;
mod queries;

use rgw_types::Text;
use std::alloc::{AllocError, Global};
use std::test::Fail;
use swift_words::{Query, Target, WordFault, read_place, read_target};

/// The target in words, one blank between them.
fn shown(alloc: Global, target: &Target) -> Result<String, AllocError> {
    match target {
        Target::Auth => String::from_str(alloc, "auth"),
        Target::Account(account) => format!(in alloc; "account {account}"),
        Target::Container(account, container) => {
            format!(in alloc; "container {account} {container}")
        }
        Target::Thing(account, container, object) => {
            format!(in alloc; "object {account} {container} {object}")
        }
        Target::Unknown => String::from_str(alloc, "unknown"),
    }
}

#[test]
fn paths_name_what_the_table_says(rt: HostRuntime) -> Result<(), Fail> {
    let alloc = rt.alloc();
    let table: &[(&[u8], &str)] = &[
        (b"/auth", "auth"),
        (b"/auth/", "auth"),
        (b"/auth/1.0", "auth"),
        (b"/auth/1.0/", "auth"),
        (b"/auth/v1.0", "auth"),
        (b"/auth/v1.0/", "auth"),
        (b"/%61uth", "auth"),
        (b"/auth?limit=1", "auth"),
        (b"/auth//", "unknown"),
        (b"/auth/2.0", "unknown"),
        (b"/auth%2F1.0", "unknown"),
        (b"/", "unknown"),
        (b"/?", "unknown"),
        (b"//", "unknown"),
        (b"/swift/v1", "unknown"),
        (b"/swift/v1/", "unknown"),
        (b"/swift/v1/acme/box", "unknown"),
        (b"/swift/v2/AUTH_acme/box", "unknown"),
        (b"/swift/v1/AUTH_acme", "account acme"),
        (b"/swift/v1/AUTH_acme/", "account acme"),
        (b"/swift/v1/%41UTH_a%20b", "account a b"),
        (b"/swift/v1/AUTH_", "account "),
        (b"/swift/v1/AUTH_acme/box", "container acme box"),
        (b"/swift/v1/AUTH_acme/box/", "container acme box"),
        (b"/swift/v1/AUTH_acme/_b%2Fx?a/b", "container acme _b/x"),
        (b"/swift/v1/AUTH_acme/box/k", "object acme box k"),
        (b"/swift/v1/AUTH_acme/box/k/", "object acme box k/"),
        (b"/swift/v1/AUTH_acme/box//", "object acme box /"),
        (b"/swift/v1/AUTH_/box/a/b//c+%2B", "object  box a/b//c++"),
        (
            b"/swift/v1/AUTH_acme/box/%C3%A4?x=y",
            "object acme box \u{e4}",
        ),
    ];
    for (target, want) in table {
        let (named, _) = read_target(alloc, target)?;
        assert_eq!(rt; shown(alloc, &named)?.as_str(), *want);
    }
    Ok(())
}

/// Whether both targets name the same, and ask for the same.
fn are_same(alloc: Global, one: &[u8], other: &[u8]) -> Result<bool, WordFault> {
    let (one, asked) = read_target(alloc, one)?;
    let same = is_read_as(alloc, other, &one, &asked);
    drop(one);
    drop(asked);
    same
}

fn is_read_as(
    alloc: Global,
    target: &[u8],
    named: &Target,
    asked: &Query,
) -> Result<bool, WordFault> {
    let read = read_target(alloc, target)?;
    let same = read.0 == *named && read.1 == *asked;
    drop(read);
    Ok(same)
}

#[test]
fn an_escaped_slash_names_the_same_object(rt: HostRuntime) -> Result<(), Fail> {
    let same = are_same(
        rt.alloc(),
        b"/swift/v1/AUTH_acme/box/a%2Fb",
        b"/swift/v1/AUTH_acme/box/a/b",
    )?;
    assert!(rt; same);
    Ok(())
}
