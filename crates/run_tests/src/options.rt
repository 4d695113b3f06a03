// Words whose meaning comes from the manual of the program and from examples worked by hand.
use rgw_words::{RunWords, ServeWords, Serving, WordsFault, read_once, read_script, read_serve};
use std::alloc::{AllocError, Global};
use std::test::Fail;

/// A users text of one user.
const ONE_USER: &str = "[{\"user\":\"beta:bob\",\"key\":\"k\",\"token\":\"t\"}]";

/// A users text of two.
const TWO_USERS: &str =
    "[{\"user\":\"beta:bob\",\"key\":\"k\",\"token\":\"t\"},{\"user\":\"acme:ann\",\"key\":\"k\",\"token\":\"u\"}]";

const REFUSED: &[&[&str]] = &[
    &[],
    &["once", "--port", "8080"],
    &["once", "--workers", "8"],
    &["once", "--accepts", "1"],
    &["once", "x"],
    &["once", "--bucket"],
    &["once", "box"],
    &["once", "--bucket", ""],
    &["once", "--bucket", "-x"],
    &["once", "--bucket", "-"],
    &["once", "--bucket", "a\0b"],
    &["once", "--bucket="],
    &["once", "--bucket=-x"],
    &["once", "--bucket=box", "--bucket", "box"],
    &["once", "bucket=box"],
    &["once", "--=box"],
    &["once", "=box"],
    &["once", "--buck=box"],
    &["once", "--stripe=15"],
    &["once", "--stripe=+16"],
    &["once", "--bucket", "--now=1"],
    &["once", "--"],
    &["once", "--", "--bucket", "box"],
    &["once", "-h"],
    &["once", "--help"],
    &["once", "--version"],
    &["once", "--largest", "0"],
    &["once", "--largest", "5368709121"],
    &["once", "--largest=1", "--largest=1"],
    &["once", "--users", "[]"],
    &["once", "--users", ONE_USER, "--users", ONE_USER],
    &["once", "--wait-seconds", "7200"],
    &["once", "--threshold", "100000"],
    &["once", "--zones", "1"],
    &["once", "--start", "1"],
    &["once", "--steps", "1000"],
    &["once=1"],
    &["once", "--bucket", "box", "x"],
    &["once", "--bucket", "box", "--now"],
    &["once", "--bucket", "box", "--now", ""],
    &["once", "--bucket", "box", "--now", "253402300800000000"],
    &["once", "--bucket", "box", "--now", "18446744073709551617"],
    &["once", "--bucket", "box", "--now", "+1"],
    &["once", "--bucket", "box", "--now", "-1"],
    &["once", "--bucket", "box", "--now", "1x"],
    &["once", "--bucket", "box", "--now", "1", "x"],
    &["once", "--bucket", "box", "--bucket", "box"],
    &["once", "--stripe", "15"],
    &["once", "--stripe", "16", "--stripe", "16"],
    &["Once", "--bucket", "box"],
    &["serve", "--bucket", "box"],
    &["--bucket", "box"],
    &["--help"],
    &["help"],
];

const NO_SCRIPTS: &[&[&str]] = &[
    &[],
    &["script", "x"],
    &["script", "--bucket"],
    &["script", "--bucket", "-"],
    &["script", "--bucket="],
    &["script", "--users", "[]"],
    &["script", "--users", ""],
    &["script", "--users="],
    &["script", "--users", "{}"],
    &[
        "script",
        "--users",
        "[{\"user\":\"acme\",\"key\":\"k\",\"token\":\"t\"}]",
    ],
    &["script", "--users", ONE_USER, "--users", ONE_USER],
    &["script", "--largest", "0"],
    &["script", "--largest=5368709121"],
    &["script", "--stripe", "15"],
    &["script", "--stripe", "4194305"],
    &["script", "--frame", "65537"],
    &["script", "--frames", "0"],
    &["script", "--frame", "65536", "--frames", "131073"],
    &["script", "--shards", "2000"],
    &["script", "--tag-seconds", "86401"],
    &["script", "--now", "253402300800000000"],
    &["script", "--shards", "1", "--shards", "1"],
    &["script", "--zones", "1"],
    &["once", "--bucket", "box"],
];

fn strings(alloc: Global, words: &[&str]) -> Result<Vec<String>, AllocError> {
    let mut all = Vec::new(alloc);
    for word in words {
        all.push(String::from_str(alloc, word)?)?;
    }
    Ok(all)
}

fn letters(alloc: Global, count: usize) -> Result<String, AllocError> {
    let mut text = String::new(alloc);
    for _ in 0..count {
        text.push('a')?;
    }
    Ok(text)
}

fn once_of(alloc: Global, words: &[&str]) -> Result<Result<RunWords, WordsFault>, AllocError> {
    let words = strings(alloc, words)?;
    let read = read_once(alloc, &words);
    drop(words);
    Ok(read)
}

fn script_of(alloc: Global, words: &[&str]) -> Result<Result<RunWords, WordsFault>, AllocError> {
    let words = strings(alloc, words)?;
    let read = read_script(alloc, &words);
    drop(words);
    Ok(read)
}

fn is_refused(read: Result<RunWords, WordsFault>) -> bool {
    let refused = matches!(&read, Err(WordsFault::Refused));
    drop(read);
    refused
}

/// Whether the words name this container and this moment.
fn names(
    alloc: Global,
    words: &[&str],
    name: Option<&str>,
    now: Option<u64>,
) -> Result<bool, Fail> {
    let once = once_of(alloc, words)?.ok().ok_or("no words")?;
    let said = once.bucket.as_ref().map(|name| name.as_text().as_str());
    let right = said == name && once.now == now;
    drop(once);
    Ok(right)
}

#[test]
fn words_of_once_are_taken(rt: HostRuntime) -> Result<(), Fail> {
    let longest = letters(rt.alloc(), 256)?;
    let longest = longest.as_str();
    let table: [(&[&str], Option<&str>, Option<u64>); 14] = [
        (&["once"], None, None),
        (&["once", "--bucket", "box"], Some("box"), None),
        (
            &["once", "--bucket", "box", "--now", "1700000000000000"],
            Some("box"),
            Some(1_700_000_000_000_000),
        ),
        (
            &["once", "--now", "253402300799999999", "--bucket", "box"],
            Some("box"),
            Some(253_402_300_799_999_999),
        ),
        (
            &["once", "--bucket", "box", "--now", "0"],
            Some("box"),
            Some(0),
        ),
        (&["once", "--now", "00"], None, Some(0)),
        (
            &[
                "once",
                "--bucket",
                "box",
                "--now",
                "000000000000000000000000000007",
            ],
            Some("box"),
            Some(7),
        ),
        (
            &["once", "--bucket", "a-b é/", "--now", "7"],
            Some("a-b é/"),
            Some(7),
        ),
        (&["once", "--bucket", longest], Some(longest), None),
        (&["once", "--shards", "1"], None, None),
        (&["once", "--bucket=box"], Some("box"), None),
        (&["once", "--bucket=a=b", "--now=0"], Some("a=b"), Some(0)),
        (&["once", "--bucket", "a=b"], Some("a=b"), None),
        (
            &["once", "--now=7", "--bucket", "box"],
            Some("box"),
            Some(7),
        ),
    ];
    for (words, bucket, now) in table {
        assert!(rt; names(rt.alloc(), words, bucket, now)?, "{words:?}");
    }
    Ok(())
}

#[test]
fn options_of_once_are_those_of_a_script(rt: HostRuntime) -> Result<(), Fail> {
    let words = [
        "once", "--frames", "3", "--stripe", "16", "--frame", "32", "--shards", "2",
    ];
    let once = once_of(rt.alloc(), &words)?.ok().ok_or("no words")?;
    let settings = once.settings;
    drop(once);
    assert!(rt; settings.stripe == 16 && settings.frame == 32 && settings.frames == 3);
    assert!(rt; settings.shards == 2 && settings.tag_life == 120_000_000);
    Ok(())
}

/// The largest object that the words of a connection allow.
fn largest_of(alloc: Global, words: &[&str]) -> Result<u64, Fail> {
    let once = once_of(alloc, words)?.ok().ok_or("no words")?;
    let largest = once.settings.largest;
    drop(once);
    Ok(largest)
}

#[test]
fn the_largest_object_is_set_up_to_its_ends(rt: HostRuntime) -> Result<(), Fail> {
    let alloc = rt.alloc();
    assert_eq!(rt; largest_of(alloc, &["once"])?, 5_368_709_120);
    assert_eq!(rt; largest_of(alloc, &["once", "--largest", "1"])?, 1);
    assert_eq!(rt;
        largest_of(alloc, &["once", "--largest=5368709120"])?,
        5_368_709_120
    );
    Ok(())
}

/// Whether so many users are said, and the first has this name.
fn is_first(asked: RunWords, count: usize, name: &str) -> bool {
    let right = asked.users.as_slice().len() == count && asked.users.first().full_name().is(name);
    drop(asked);
    right
}

/// Whether the first of so many users of a script has this name.
fn has_first_user(alloc: Global, words: &[&str], count: usize, name: &str) -> Result<bool, Fail> {
    let script = script_of(alloc, words)?.ok().ok_or("no script")?;
    Ok(is_first(script, count, name))
}

#[test]
fn users_of_a_script_are_those_of_the_words(rt: HostRuntime) -> Result<(), Fail> {
    let alloc = rt.alloc();
    let joined = "--users=[{\"user\":\"beta:bob\",\"key\":\"k\",\"token\":\"t\"}]";
    assert!(rt; has_first_user(alloc, &["script"], 1, "acme:ann")?);
    assert!(rt; has_first_user(alloc, &["script", "--users", ONE_USER], 1, "beta:bob")?);
    assert!(rt; has_first_user(alloc, &["script", joined], 1, "beta:bob")?);
    assert!(rt; has_first_user(alloc, &["script", "--users", TWO_USERS], 2, "beta:bob")?);
    Ok(())
}

#[test]
fn users_of_a_connection_are_those_of_the_words(rt: HostRuntime) -> Result<(), Fail> {
    let alloc = rt.alloc();
    let once = once_of(alloc, &["once", "--users", TWO_USERS])?;
    assert!(rt; is_first(once.ok().ok_or("no connection")?, 2, "beta:bob"));
    let usual = once_of(alloc, &["once"])?;
    assert!(rt; is_first(usual.ok().ok_or("no connection")?, 1, "acme:ann"));
    let serve = serve_of(alloc, &["serve", "--port=80", "--users", ONE_USER])?;
    assert!(rt; is_first(serve.ok().ok_or("no server")?.run, 1, "beta:bob"));
    Ok(())
}

#[test]
fn other_words_are_refused(rt: HostRuntime) -> Result<(), Fail> {
    for words in REFUSED {
        assert!(rt; is_refused(once_of(rt.alloc(), words)?), "{words:?}");
    }
    Ok(())
}

#[test]
fn a_name_too_long_is_refused(rt: HostRuntime) -> Result<(), Fail> {
    let too_long = letters(rt.alloc(), 257)?;
    let words = ["once", "--bucket", too_long.as_str()];
    assert!(rt; is_refused(once_of(rt.alloc(), &words)?));
    Ok(())
}

#[test]
fn words_of_scripts_are_taken(rt: HostRuntime) -> Result<(), Fail> {
    let words = [
        "script",
        "--now",
        "7",
        "--frame",
        "65536",
        "--frames",
        "131072",
        "--tag-seconds",
        "086400",
        "--bucket",
        "box",
        "--shards",
        "1999",
        "--stripe",
        "16",
    ];
    let script = script_of(rt.alloc(), &words)?.ok().ok_or("no script")?;
    let is_named = script
        .bucket
        .as_ref()
        .is_some_and(|name| name.as_text().is("box"));
    let (settings, now) = (script.settings, script.now);
    drop(script);
    assert!(rt; is_named && now == Some(7));
    assert!(rt; settings.stripe == 16 && settings.frame == 65_536 && settings.frames == 131_072);
    assert!(rt; settings.shards == 1999 && settings.tag_life == 86_400_000_000);
    Ok(())
}

#[test]
fn a_script_without_options_has_those_of_the_manual(rt: HostRuntime) -> Result<(), Fail> {
    let script = script_of(rt.alloc(), &["script"])?.ok().ok_or("no script")?;
    let is_bare = script.bucket.is_none() && script.now.is_none();
    let settings = script.settings;
    drop(script);
    assert!(rt; is_bare);
    assert!(rt;
        settings.stripe == 4_194_304 && settings.frame == 4096 && settings.frames == 16_384
    );
    assert!(rt; settings.shards == 11 && settings.tag_life == 120_000_000 && settings.zones == 1);
    Ok(())
}

#[test]
fn other_words_are_no_script(rt: HostRuntime) -> Result<(), Fail> {
    for words in NO_SCRIPTS {
        assert!(rt; is_refused(script_of(rt.alloc(), words)?), "{words:?}");
    }
    Ok(())
}

const NO_SERVERS: &[&[&str]] = &[
    &[],
    &["once"],
    &["serve", "x"],
    &["serve", "--port"],
    &["serve", "--port", "0"],
    &["serve", "--port", "65529"],
    &["serve", "--port", "80", "--port", "80"],
    &["serve", "--workers", "0"],
    &["serve", "--workers", "65"],
    &["serve", "--accepts", "0"],
    &["serve", "--accepts", "1000001"],
    &["serve", "--accepts", "-1"],
    &["serve", "--stripe", "15"],
    &["serve", "--users", "[]"],
    &["serve", "--users", ONE_USER, "--users", ONE_USER],
    &["serve", "--port=0"],
    &["serve", "--port=80", "--port", "80"],
];

fn serve_of(alloc: Global, words: &[&str]) -> Result<Result<ServeWords, WordsFault>, AllocError> {
    let words = strings(alloc, words)?;
    let read = read_serve(alloc, &words);
    drop(words);
    Ok(read)
}

// What the words say of the connections, where they ask for a server.
fn serving_of(alloc: Global, words: &[&str]) -> Result<Serving, Fail> {
    let read = serve_of(alloc, words)?.ok().ok_or("no server")?;
    let serving = read.serving;
    drop(read);
    Ok(serving)
}

#[test]
fn a_server_without_options_has_those_of_the_manual(rt: HostRuntime) -> Result<(), Fail> {
    let usual = Serving {
        port: 8080,
        workers: 8,
        accepts: None,
    };
    assert!(rt; serving_of(rt.alloc(), &["serve"])? == usual);
    assert!(rt; serving_of(rt.alloc(), &["serve", "--bucket", "box"])? == usual);
    Ok(())
}

#[test]
fn options_of_a_server_are_taken_up_to_their_ends(rt: HostRuntime) -> Result<(), Fail> {
    let greatest = [
        "serve",
        "--accepts",
        "1000000",
        "--port",
        "65528",
        "--shards",
        "1",
        "--workers",
        "64",
    ];
    let least = ["serve", "--workers=1", "--port", "01", "--accepts=1"];
    let serving = serving_of(rt.alloc(), &greatest)?;
    assert!(rt; serving.port == 65_528 && serving.workers == 64);
    assert!(rt; serving.accepts == Some(1_000_000));
    let serving = serving_of(rt.alloc(), &least)?;
    assert!(rt; serving.port == 1 && serving.workers == 1 && serving.accepts == Some(1));
    Ok(())
}

#[test]
fn other_words_ask_for_no_server(rt: HostRuntime) -> Result<(), Fail> {
    for words in NO_SERVERS {
        let read = serve_of(rt.alloc(), words)?;
        let refused = matches!(&read, Err(WordsFault::Refused));
        drop(read);
        assert!(rt; refused, "{words:?}");
    }
    Ok(())
}
