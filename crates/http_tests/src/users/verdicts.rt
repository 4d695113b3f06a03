// Each deed against each who may ask.
use super::*;
use object_words::{Bucket, ShardCount};
use rgw_types::{Pairs, Text};

const GRANTED: Verdict = Verdict::Granted;

const UNKNOWN: Verdict = Verdict::Unknown;

const NO_ACCOUNT: Verdict = Verdict::Denied {
    rule: Rule::Account,
};

const NO_READ: Verdict = Verdict::Denied { rule: Rule::Read };

const NO_WRITE: Verdict = Verdict::Denied { rule: Rule::Write };

/// A container of an account with these lists.
fn container(alloc: Global, owner: &str, readers: &str, writers: &str) -> Result<Bucket, Fail> {
    Ok(Bucket {
        id: 1,
        owner: Text::from_str(alloc, owner)?,
        version: 1,
        shared: 1,
        number: 0,
        busy: None,
        instance: 1,
        shards: ShardCount::new(1).ok_or("no shards")?,
        meta: Pairs::new(alloc),
        readers: Text::from_str(alloc, readers)?,
        writers: Text::from_str(alloc, writers)?,
    })
}

/// The verdicts of the four deeds: the account, a listing, a read and a change.
fn verdicts(user: Option<&User>, account: &Text, bucket: Option<&Bucket>) -> [Verdict; 4] {
    [
        judge(user, account, bucket, Deed::OwnAccount),
        judge(user, account, bucket, Deed::ListContainer),
        judge(user, account, bucket, Deed::ReadThing),
        judge(user, account, bucket, Deed::ChangeThing),
    ]
}

/// The verdicts on a container of the account `acme`.
fn at_acme(alloc: Global, token: &str, readers: &str, writers: &str) -> Result<[Verdict; 4], Fail> {
    let users = three(alloc)?;
    let account = Text::from_str(alloc, "acme")?;
    let bucket = container(alloc, "acme", readers, writers)?;
    Ok(verdicts(users.who(token.as_bytes()), &account, Some(&bucket)))
}

#[test]
fn a_user_of_the_account(rt: HostRuntime) -> Result<(), Fail> {
    for (readers, writers) in [("", ""), ("beta", "gamma:eve"), (".r:*,.rlistings", "")] {
        let seen = at_acme(rt.alloc(), "AUTH_tk1", readers, writers)?;
        assert_eq!(rt; seen, [GRANTED, GRANTED, GRANTED, GRANTED]);
    }
    Ok(())
}

/// The readers and writers of a container, and the verdicts on a listing, a read and a change.
type Lists<'a> = (&'a str, &'a str, Verdict, Verdict, Verdict);

const OF_BETA: &[Lists<'_>] = &[
    ("", "", NO_READ, NO_READ, NO_WRITE),
    ("acme,gamma:eve", "gamma", NO_READ, NO_READ, NO_WRITE),
    ("beta:", ":bob", NO_READ, NO_READ, NO_WRITE),
    ("bob", "beta:bobby", NO_READ, NO_READ, NO_WRITE),
    ("beta", "", GRANTED, GRANTED, NO_WRITE),
    ("", "beta", NO_READ, NO_READ, GRANTED),
    ("beta:bob", "", GRANTED, GRANTED, NO_WRITE),
    ("", "beta:bob", NO_READ, NO_READ, GRANTED),
    ("x, beta:bob ,y", "\tbeta ,", GRANTED, GRANTED, GRANTED),
    ("be ta", "beta bob", NO_READ, NO_READ, NO_WRITE),
    (".r:*", ".r:*", NO_READ, GRANTED, NO_WRITE),
    (".rlistings", "", NO_READ, NO_READ, NO_WRITE),
    (" .rlistings , .r:* ", "", GRANTED, GRANTED, NO_WRITE),
];

#[test]
fn a_user_of_another_account(rt: HostRuntime) -> Result<(), Fail> {
    for (readers, writers, list, read, change) in OF_BETA {
        let seen = at_acme(rt.alloc(), "AUTH_tk2", readers, writers)?;
        let right = seen == [NO_ACCOUNT, *list, *read, *change];
        assert!(rt; right, "{readers} {writers}");
    }
    Ok(())
}

#[test]
fn nobody_known(rt: HostRuntime) -> Result<(), Fail> {
    for (readers, writers, list, read) in [
        ("", "", UNKNOWN, UNKNOWN),
        ("beta,gamma:eve", "beta", UNKNOWN, UNKNOWN),
        (".r:*", ".r:*", UNKNOWN, GRANTED),
        (".rlistings", ".rlistings", UNKNOWN, UNKNOWN),
        (".r:*,.rlistings", "", GRANTED, GRANTED),
        (".r:*.rlistings", "", UNKNOWN, UNKNOWN),
    ] {
        let seen = at_acme(rt.alloc(), "AUTH_tk9", readers, writers)?;
        assert_eq!(rt; seen, [UNKNOWN, list, read, UNKNOWN], "{readers} {writers}");
    }
    Ok(())
}

/// Whether each of three users has the verdicts of one to whom the container is nothing.
fn is_nothing(users: &Users, account: &Text, bucket: Option<&Bucket>) -> bool {
    verdicts(users.who(b"AUTH_tk1"), account, bucket) == [GRANTED; 4]
        && verdicts(users.who(b"AUTH_tk2"), account, bucket)
            == [NO_ACCOUNT, NO_READ, NO_READ, NO_WRITE]
        && verdicts(None, account, bucket) == [UNKNOWN; 4]
}

#[test]
fn a_container_that_is_not_found(rt: HostRuntime) -> Result<(), Fail> {
    let alloc = rt.alloc();
    let account = Text::from_str(alloc, "acme")?;
    let other = container(alloc, "gamma", ".r:*,.rlistings,beta", "beta")?;
    let users = three(alloc)?;
    let none = is_nothing(&users, &account, None);
    let another = is_nothing(&users, &account, Some(&other));
    drop(users);
    drop(other);
    assert!(rt; none && another);
    Ok(())
}

#[test]
fn the_word_for_listings_is_no_account(rt: HostRuntime) -> Result<(), Fail> {
    let alloc = rt.alloc();
    let users = Users::read(
        alloc,
        "[{\"user\":\".rlistings:x\",\"key\":\"k\",\"token\":\"t\"}]",
    )?;
    let account = Text::from_str(alloc, "acme")?;
    let bucket = container(alloc, "acme", ".rlistings", ".rlistings:x")?;
    let seen = verdicts(users.who(b"t"), &account, Some(&bucket));
    assert_eq!(rt; seen, [NO_ACCOUNT, NO_READ, NO_READ, GRANTED]);
    Ok(())
}
