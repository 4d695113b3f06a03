// Which texts list users.
use super::*;
use std::alloc::{AllocError, Global};

fn is_refused(alloc: Global, text: &str) -> bool {
    matches!(Users::read(alloc, text), Err(UsersFault::BadUsers))
}

/// The text of one user with these texts.
fn one(alloc: Global, user: &str, key: &str, token: &str) -> Result<String, AllocError> {
    format!(in alloc; "[{{\"user\":\"{user}\",\"key\":\"{key}\",\"token\":\"{token}\"}}]")
}

#[test]
fn texts_that_list_no_users(rt: HostRuntime) -> Result<(), Fail> {
    for text in [
        "",
        "[]",
        "{}",
        "[{}]",
        "[[]]",
        "[null]",
        "\"acme:ann\"",
        "{\"user\":\"a:b\",\"key\":\"k\",\"token\":\"t\"}",
        "[{\"user\":\"a:b\",\"key\":\"k\",\"token\":\"t\"}",
        "[{\"user\":\"a:b\",\"key\":\"k\",\"token\":\"t\"}] x",
        "[{\"user\":\"a:b\",\"key\":\"k\"}]",
        "[{\"user\":\"a:b\",\"token\":\"t\"}]",
        "[{\"key\":\"k\",\"token\":\"t\"}]",
        "[{\"user\":\"a:b\",\"key\":1,\"token\":\"t\"}]",
        "[{\"User\":\"a:b\",\"key\":\"k\",\"token\":\"t\"}]",
        "[{\"user\":\"a:b\",\"key\":\"k\",\"token\":\"t\"},1]",
    ] {
        assert!(rt; is_refused(rt.alloc(), text), "{text}");
    }
    Ok(())
}

#[test]
fn two_users_with_one_token_or_one_name(rt: HostRuntime) -> Result<(), Fail> {
    let alloc = rt.alloc();
    assert!(rt;
        is_refused(
            alloc,
            "[{\"user\":\"a:b\",\"key\":\"k\",\"token\":\"t\"},{\"user\":\"a:c\",\"key\":\"l\",\"token\":\"t\"}]"
        )
    );
    assert!(rt;
        is_refused(
            alloc,
            "[{\"user\":\"a:b\",\"key\":\"k\",\"token\":\"t\"},{\"user\":\"a:b\",\"key\":\"l\",\"token\":\"u\"}]"
        )
    );
    let users = Users::read(
        alloc,
        "[{\"user\":\"a:b\",\"key\":\"k\",\"token\":\"t\"},{\"user\":\"a:c\",\"key\":\"k\",\"token\":\"u\"}]",
    )?;
    assert_eq!(rt; users.as_slice().len(), 2);
    Ok(())
}

#[test]
fn the_last_member_of_a_name_counts(rt: HostRuntime) -> Result<(), Fail> {
    let users = Users::read(
        rt.alloc(),
        "[{\"user\":1,\"token\":\"t\",\"key\":\"k\",\"user\":\"a:b\",\"token\":\"\\u0075\"}]",
    )?;
    assert!(rt; users.first().full_name().is("a:b"));
    assert!(rt; users.who(b"u").is_some());
    assert!(rt; users.who(b"t").is_none());
    Ok(())
}

fn are_taken(alloc: Global, user: &str, key: &str, token: &str) -> Result<bool, AllocError> {
    let text = one(alloc, user, key, token)?;
    Ok(Users::read(alloc, text.as_str()).is_ok())
}

/// The name, the key and the token of a user, and whether they are taken.
const TAKEN: &[(&str, &str, &str, bool)] = &[
    ("a:b", "k", "t", true),
    ("A-z_0.9:.-_", "!~", "a,b:c", true),
    ("ab", "k", "t", false),
    (":b", "k", "t", false),
    ("a:", "k", "t", false),
    ("a:b:c", "k", "t", false),
    ("a/x:b", "k", "t", false),
    ("a:b c", "k", "t", false),
    ("a:\u{e4}", "k", "t", false),
    ("a:b", "", "t", false),
    ("a:b", "k", "", false),
    ("a:b", "k k", "t", false),
    ("a:b", "k", "t\u{7f}", false),
    ("a:b", "k\u{e4}", "t", false),
];

#[test]
fn names_keys_and_tokens(rt: HostRuntime) -> Result<(), Fail> {
    for (user, key, token, taken) in TAKEN {
        let found = are_taken(rt.alloc(), user, key, token)?;
        assert_eq!(rt; found, *taken, "{user} {key} {token}");
    }
    Ok(())
}

#[test]
fn the_longest_names_keys_and_tokens(rt: HostRuntime) -> Result<(), Fail> {
    let alloc = rt.alloc();
    for (account, name, key, token, taken) in [
        (64, 64, 128, 128, true),
        (65, 64, 128, 128, false),
        (64, 65, 128, 128, false),
        (64, 64, 129, 128, false),
        (64, 64, 128, 129, false),
    ] {
        let account = "a".repeat(alloc, account)?;
        let name = "n".repeat(alloc, name)?;
        let user = format!(in alloc; "{account}:{name}")?;
        let key = "k".repeat(alloc, key)?;
        let token = "t".repeat(alloc, token)?;
        let text = one(alloc, user.as_str(), key.as_str(), token.as_str())?;
        assert_eq!(rt; Users::read(alloc, text.as_str()).is_ok(), taken);
    }
    Ok(())
}

/// The text of so many users, all different.
fn many(alloc: Global, count: u32) -> Result<String, AllocError> {
    let mut text = String::from_str(alloc, "[")?;
    for n in 0..count {
        let comma = if n == 0 { "" } else { "," };
        let user = format!(in alloc;
            "{comma}{{\"user\":\"a:u{n}\",\"key\":\"k\",\"token\":\"t{n}\"}}"
        )?;
        text.push_str(user.as_str())?;
    }
    text.push_str("]")?;
    Ok(text)
}

#[test]
fn a_thousand_users_and_one_more(rt: HostRuntime) -> Result<(), Fail> {
    let alloc = rt.alloc();
    let users = Users::read(alloc, many(alloc, 1000)?.as_str())?;
    assert_eq!(rt; users.as_slice().len(), Users::MOST);
    let last = users.who(b"t999").ok_or("not known")?;
    assert!(rt; last.full_name().is("a:u999"));
    assert!(rt; is_refused(alloc, many(alloc, 1001)?.as_str()));
    Ok(())
}
