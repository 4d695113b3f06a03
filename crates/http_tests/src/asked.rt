// What heads ask, of two users, in words.
use http_model::{Head, read_head};
use list_words::ListCommand;
use rgw_types::{Bytes, Pairs, Text};
use std::alloc::{AllocError, Global};
use std::test::Fail;
use swift_auth::Users;
use swift_reply::{Denial, Invalid, ListingForm, SwiftRefusal, TargetKind};
use swift_requests::{Asked, BodyUse, UnfedCommand, body_use, read_asked};
use task_account::{AccountCommand, AccountListing};
use task_container::{ContainerChanges, ContainerCommand};
use task_words::Asker;

const LARGEST: u64 = 5_368_709_120;

/// Two users of two accounts.
const TWO: &str = "[{\"user\":\"acme:ann\",\"key\":\"secret\",\"token\":\"AUTH_tk1\"},
    {\"user\":\"corp:bob\",\"key\":\"hunter2\",\"token\":\"AUTH_tk2\"}]";

fn head_of(alloc: Global, text: &[u8]) -> Result<Head, Fail> {
    Ok(read_head(alloc, text).ok().ok_or("no head")?)
}

/// The name of who asks.
fn name_of(asker: &Asker) -> &str {
    match &asker.user {
        Some(user) => user.full_name().as_str(),
        None => "nobody",
    }
}

fn target_word(kind: TargetKind) -> &'static str {
    match kind {
        TargetKind::Auth => "405 auth",
        TargetKind::Account => "405 account",
        TargetKind::Container => "405 container",
        TargetKind::Object => "405 object",
    }
}

fn invalid_word(invalid: Invalid) -> &'static str {
    match invalid {
        Invalid::Value => "400 value",
        Invalid::Meta => "400 meta",
        Invalid::Target => "400 target",
        Invalid::Limit => "400 limit",
        _other => "400",
    }
}

fn refusal_word(refusal: &SwiftRefusal) -> &'static str {
    match refusal {
        SwiftRefusal::Invalid(invalid) => invalid_word(*invalid),
        SwiftRefusal::Unauthorized => "401",
        SwiftRefusal::Denied(Denial::Account) => "403 account",
        SwiftRefusal::NoPath => "404",
        SwiftRefusal::NoMethod(kind) => target_word(*kind),
        SwiftRefusal::NoLength => "411",
        SwiftRefusal::TooLarge => "413",
        SwiftRefusal::TargetTooLong => "414",
        SwiftRefusal::NotBuilt => "501",
        _other => "another refusal",
    }
}

fn form_word(form: ListingForm) -> &'static str {
    match form {
        ListingForm::Plain => "plain",
        ListingForm::Json => "json",
    }
}

fn list_text(alloc: Global, list: &Option<Text>) -> Result<String, AllocError> {
    match list {
        Some(list) => format!(in alloc; "({list})"),
        None => String::from_str(alloc, "-"),
    }
}

fn pairs_text(alloc: Global, pairs: &Pairs) -> Result<String, AllocError> {
    let mut text = String::new(alloc);
    for (name, value) in pairs.as_slice() {
        text.push_str(name.as_str())?;
        text.push_str("=")?;
        text.push_str(value.as_str())?;
        text.push_str(";")?;
    }
    Ok(text)
}

/// The metadata, the read list and the write list.
fn changes_text(alloc: Global, changes: &ContainerChanges) -> Result<String, AllocError> {
    let pairs = pairs_text(alloc, &changes.meta)?;
    let readers = list_text(alloc, &changes.readers)?;
    let writers = list_text(alloc, &changes.writers)?;
    format!(in alloc; "[{pairs}] {readers} {writers}")
}

fn container_text(alloc: Global, command: &ContainerCommand) -> Result<String, AllocError> {
    match command {
        ContainerCommand::Head { name } => format!(in alloc; "head {}", name.as_text()),
        ContainerCommand::Put { name, changes } => {
            let changes = changes_text(alloc, changes)?;
            format!(in alloc; "put {} {changes}", name.as_text())
        }
        ContainerCommand::Post { name, changes } => {
            let changes = changes_text(alloc, changes)?;
            format!(in alloc; "post {} {changes}", name.as_text())
        }
        ContainerCommand::Delete { name } => format!(in alloc; "delete {}", name.as_text()),
    }
}

fn listing_text(alloc: Global, list: &AccountListing) -> Result<String, AllocError> {
    format!(in alloc;
        "list {} {} {} {} {}",
        list.limit, list.marker, list.end_marker, list.prefix, list.delimiter
    )
}

fn list_command_text(alloc: Global, list: &ListCommand) -> Result<String, AllocError> {
    let container = list.container.as_text();
    format!(in alloc;
        "list {container} {} {} {} {} {}",
        list.limit, list.marker, list.end_marker, list.prefix, list.delimiter
    )
}

fn account_text(alloc: Global, command: &AccountCommand) -> Result<String, AllocError> {
    match command {
        AccountCommand::Head => String::from_str(alloc, "head"),
        AccountCommand::List(list) => listing_text(alloc, list),
    }
}

fn host_text(host: &Bytes) -> &str {
    match str::from_utf8(host.as_slice()) {
        Ok(host) => host,
        Err(_) => "?",
    }
}

/// What is asked that wants no body, in words.
fn unfed_text(alloc: Global, command: &UnfedCommand) -> Result<String, AllocError> {
    match command {
        UnfedCommand::Get(get) => {
            let verb = if get.body { "get" } else { "look at" };
            format!(in alloc; "{verb} {} {}", get.container.as_text(), get.name.as_text())
        }
        UnfedCommand::Listing(list, form) => {
            let list = list_command_text(alloc, list)?;
            format!(in alloc; "{list} {}", form_word(*form))
        }
        UnfedCommand::Container(command) => container_text(alloc, command),
        UnfedCommand::Account(command, form) => {
            let command = account_text(alloc, command)?;
            format!(in alloc; "{command} {}", form_word(*form))
        }
    }
}

/// What is asked, in words: who asks, at which account, and for what.
fn shown(alloc: Global, asked: &Asked) -> Result<String, AllocError> {
    match asked {
        Asked::BadHost => String::from_str(alloc, "400 host"),
        Asked::Refused(refusal) => String::from_str(alloc, refusal_word(refusal)),
        Asked::Login {
            host,
            account,
            token,
        } => format!(in alloc; "login {} {account} {token}", host_text(host)),
        Asked::Put { asker, command } => format!(in alloc;
            "{} at {}: put {} {}",
            name_of(asker),
            asker.account,
            command.container.as_text(),
            command.name.as_text()
        ),
        Asked::Unfed { asker, command } => {
            let command = unfed_text(alloc, command)?;
            format!(in alloc; "{} at {}: {command}", name_of(asker), asker.account)
        }
    }
}

/// What a head asks, in words.
fn asked_in(alloc: Global, text: &[u8]) -> Result<String, Fail> {
    let users = Users::read(alloc, TWO)?;
    let head = head_of(alloc, text)?;
    let asked = read_asked(alloc, &users, LARGEST, &head)?;
    drop(head);
    drop(users);
    let words = shown(alloc, &asked)?;
    drop(asked);
    Ok(words)
}

/// What a head of this first line and these fields asks, in words.
fn asked_by(alloc: Global, line: &str, fields: &str) -> Result<String, Fail> {
    let text = format!(in alloc; "{line}\r\n{fields}\r\n")?;
    asked_in(alloc, text.as_bytes())
}

#[test]
fn users_are_let_in(rt: HostRuntime) -> Result<(), Fail> {
    let table: &[(&str, &str, &str)] = &[
        (
            "GET /auth/v1.0 HTTP/1.1",
            "Host: h\r\nX-Auth-User: acme:ann\r\nX-Auth-Key: secret\r\n",
            "login h acme AUTH_tk1",
        ),
        (
            "GET /auth HTTP/1.0",
            "x-auth-key: hunter2\r\nx-auth-user: corp:bob\r\n",
            "login localhost corp AUTH_tk2",
        ),
        (
            "GET /auth/1.0 HTTP/1.1",
            "Host: h\r\nX-Auth-User: acme:ann\r\nX-Auth-Key: hunter2\r\n",
            "401",
        ),
        (
            "GET /auth/v1.0 HTTP/1.1",
            "Host: h\r\nX-Auth-User: acme:ann\r\n",
            "401",
        ),
        (
            "POST /auth/v1.0 HTTP/1.1",
            "Host: h\r\nX-Auth-User: acme:ann\r\nX-Auth-Key: secret\r\n",
            "405 auth",
        ),
        ("GET /auth/v1.0 HTTP/1.1", "", "400 host"),
    ];
    for (line, fields, want) in table {
        assert_eq!(rt; asked_by(rt.alloc(), line, fields)?.as_str(), *want);
    }
    Ok(())
}

#[test]
fn accounts_are_asked(rt: HostRuntime) -> Result<(), Fail> {
    let table: &[(&str, &str, &str)] = &[
        (
            "GET /swift/v1/AUTH_acme HTTP/1.1",
            "Host: h\r\nX-Auth-Token: AUTH_tk1\r\n",
            "acme:ann at acme: list 10000     plain",
        ),
        (
            "GET /swift/v1/AUTH_corp?limit=2&marker=a&end_marker=z&prefix=b&delimiter=%2F&format=json HTTP/1.1",
            "Host: h\r\nX-Auth-Token: AUTH_tk2\r\n",
            "corp:bob at corp: list 2 a z b / json",
        ),
        (
            "HEAD /swift/v1/AUTH_acme?limit=2 HTTP/1.1",
            "Host: h\r\nX-Auth-Token: AUTH_tk1\r\n",
            "acme:ann at acme: head plain",
        ),
        (
            "POST /swift/v1/AUTH_acme HTTP/1.1",
            "Host: h\r\n",
            "405 account",
        ),
        ("GET /swift/v1/AUTH_acme HTTP/1.1", "Host: h\r\n", "401"),
        (
            "HEAD /swift/v1/AUTH_acme HTTP/1.1",
            "Host: h\r\nX-Auth-Token: AUTH_tk3\r\n",
            "401",
        ),
        (
            "GET /swift/v1/AUTH_acme HTTP/1.1",
            "Host: h\r\nX-Auth-Token: AUTH_tk2\r\n",
            "403 account",
        ),
        (
            "GET /swift/v1/AUTH_acme HTTP/1.1",
            "Host: h\r\nX-Auth-Token: AUTH_tk2\r\nContent-Length: 5368709121\r\n",
            "413",
        ),
        (
            "GET /swift/v1/AUTH_acme?limit=x HTTP/1.1",
            "Host: h\r\n",
            "400 limit",
        ),
    ];
    for (line, fields, want) in table {
        assert_eq!(rt; asked_by(rt.alloc(), line, fields)?.as_str(), *want);
    }
    Ok(())
}

#[test]
fn containers_are_looked_at(rt: HostRuntime) -> Result<(), Fail> {
    let table: &[(&str, &str, &str)] = &[
        (
            "GET /swift/v1/AUTH_acme/box?format=json HTTP/1.1",
            "Host: h\r\nX-Auth-Token: AUTH_tk2\r\n",
            "corp:bob at acme: list box 10000     json",
        ),
        (
            "HEAD /swift/v1/AUTH_acme/c%20d/ HTTP/1.0",
            "",
            "nobody at acme: head c d",
        ),
        (
            "GET /swift/v1/AUTH_acme/box HTTP/1.1",
            "Host: h\r\nX-Auth-Token: AUTH_tk1\r\nX-Auth-Token: none\r\n",
            "401",
        ),
        (
            "COPY /swift/v1/AUTH_acme/box HTTP/1.1",
            "Host: h\r\nX-Auth-Token: none\r\n",
            "405 container",
        ),
        ("GET /swift/v2/AUTH_acme HTTP/1.1", "Host: h\r\n", "404"),
    ];
    for (line, fields, want) in table {
        assert_eq!(rt; asked_by(rt.alloc(), line, fields)?.as_str(), *want);
    }
    Ok(())
}

#[test]
fn containers_are_changed(rt: HostRuntime) -> Result<(), Fail> {
    let table: &[(&str, &str, &str)] = &[
        (
            "PUT /swift/v1/AUTH_acme/box HTTP/1.1",
            "Host: h\r\nX-Auth-Token: AUTH_tk1\r\n",
            "acme:ann at acme: put box [] - -",
        ),
        (
            "POST /swift/v1/AUTH_acme/box HTTP/1.1",
            "Host: h\r\nX-Auth-Token: AUTH_tk1\r\nX-Container-Read: .r:*,.rlistings\r\n",
            "acme:ann at acme: post box [] (.r:*,.rlistings) -",
        ),
        (
            "PUT /swift/v1/AUTH_acme/box HTTP/1.1",
            "Host: h\r\nX-Auth-Token: AUTH_tk1\r\nX-Container-Meta-Color: red\r\nX-Container-Write: corp:bob\r\nX-Remove-Container-Meta-B: x\r\nx-container-meta-COLOR: \u{e9}\r\nX-Container-Write:\r\n",
            "acme:ann at acme: put box [b=;color=\u{e9};] - ()",
        ),
        (
            "DELETE /swift/v1/AUTH_acme/box HTTP/1.1",
            "Host: h\r\nX-Auth-Token: AUTH_tk1\r\n",
            "acme:ann at acme: delete box",
        ),
        (
            "DELETE /swift/v1/AUTH_acme/box HTTP/1.1",
            "Host: h\r\nX-Auth-Token: AUTH_tk2\r\n",
            "403 account",
        ),
        (
            "PUT /swift/v1/AUTH_acme/box HTTP/1.1",
            "Host: h\r\nX-Container-Meta-: x\r\n",
            "401",
        ),
        (
            "PUT /swift/v1/AUTH_acme/box HTTP/1.1",
            "Host: h\r\nX-Auth-Token: AUTH_tk2\r\nX-Container-Meta-: x\r\n",
            "400 meta",
        ),
        (
            "POST /swift/v1/AUTH_acme/box HTTP/1.1",
            "Host: h\r\nX-Auth-Token: AUTH_tk2\r\nContent-Length: 5368709121\r\n",
            "413",
        ),
    ];
    for (line, fields, want) in table {
        assert_eq!(rt; asked_by(rt.alloc(), line, fields)?.as_str(), *want);
    }
    Ok(())
}

#[test]
fn lists_and_values_are_text(rt: HostRuntime) -> Result<(), Fail> {
    let table: &[(&[u8], &str)] = &[
        (
            b"PUT /swift/v1/AUTH_acme/box HTTP/1.1\r\nHost: h\r\nX-Auth-Token: AUTH_tk1\r\nX-Container-Read: \xFF\r\n\r\n",
            "400 value",
        ),
        (
            b"POST /swift/v1/AUTH_acme/box HTTP/1.1\r\nHost: h\r\nX-Auth-Token: AUTH_tk2\r\nX-Container-Meta-A: \xFF\r\nContent-Length: 5368709121\r\n\r\n",
            "400 value",
        ),
        (
            b"POST /swift/v1/AUTH_acme/box HTTP/1.1\r\nHost: h\r\nX-Auth-Token: AUTH_tk1\r\nX-Remove-Container-Meta-A: \xFF\r\n\r\n",
            "acme:ann at acme: post box [a=;] - -",
        ),
    ];
    for (text, want) in table {
        assert_eq!(rt; asked_in(rt.alloc(), text)?.as_str(), *want);
    }
    Ok(())
}

#[test]
fn objects_are_asked_for(rt: HostRuntime) -> Result<(), Fail> {
    let table: &[(&str, &str, &str)] = &[
        (
            "GET /swift/v1/AUTH_acme/box/a/b HTTP/1.1",
            "Host: h\r\nX-Auth-Token: AUTH_tk2\r\n",
            "corp:bob at acme: get box a/b",
        ),
        (
            "HEAD /swift/v1/AUTH_other/box/k HTTP/1.0",
            "",
            "nobody at other: look at box k",
        ),
        (
            "PUT /swift/v1/AUTH_acme/box/k HTTP/1.1",
            "Host: h\r\nContent-Length: 5\r\n",
            "401",
        ),
        (
            "PUT /swift/v1/AUTH_acme/box/k HTTP/1.1",
            "Host: h\r\nX-Auth-Token: none\r\n",
            "401",
        ),
        (
            "PUT /swift/v1/AUTH_acme/box/k HTTP/1.1",
            "Host: h\r\nX-Auth-Token: AUTH_tk1\r\n",
            "411",
        ),
        (
            "PUT /swift/v1/AUTH_acme/box/k HTTP/1.1",
            "Host: h\r\nX-Auth-Token: none\r\nX-Copy-From: box/a\r\n",
            "501",
        ),
        (
            "DELETE /swift/v1/AUTH_acme/box/k HTTP/1.1",
            "Host: h\r\nX-Auth-Token: none\r\n",
            "501",
        ),
        (
            "PATCH /swift/v1/AUTH_acme/box/k HTTP/1.1",
            "Host: h\r\nX-Auth-Token: none\r\nX-Copy-From: box/a\r\n",
            "405 object",
        ),
    ];
    for (line, fields, want) in table {
        assert_eq!(rt; asked_by(rt.alloc(), line, fields)?.as_str(), *want);
    }
    Ok(())
}

/// So many fields that set names, each another.
fn set_fields(alloc: Global, count: u32) -> Result<String, AllocError> {
    let mut fields = String::from_str(alloc, "Host: h\r\nX-Auth-Token: AUTH_tk1\r\n")?;
    for number in 0..count {
        let field = format!(in alloc; "X-Container-Meta-{number}: x\r\n")?;
        fields.push_str(field.as_str())?;
    }
    Ok(fields)
}

#[test]
fn ninety_names_may_be_set(rt: HostRuntime) -> Result<(), Fail> {
    let alloc = rt.alloc();
    let line = "POST /swift/v1/AUTH_acme/box HTTP/1.1";
    let mut most = set_fields(alloc, 90)?;
    most.push_str("X-Remove-Container-Meta-a: x\r\n")?;
    assert!(rt;
        asked_by(alloc, line, most.as_str())?.starts_with(
            "acme:ann at acme: post box [0=x;1=x;10=x;"
        )
    );
    let many = set_fields(alloc, 91)?;
    assert_eq!(rt; asked_by(alloc, line, many.as_str())?.as_str(), "400 meta");
    Ok(())
}

/// What becomes of the body behind a head.
fn body_behind(alloc: Global, text: &str) -> Result<BodyUse, Fail> {
    let users = Users::read(alloc, TWO)?;
    let head = head_of(alloc, text.as_bytes())?;
    let asked = read_asked(alloc, &users, LARGEST, &head)?;
    drop(users);
    let body = body_use(LARGEST, &head, &asked);
    drop(asked);
    drop(head);
    Ok(body)
}

#[test]
fn bodies_are_dropped_or_left(rt: HostRuntime) -> Result<(), Fail> {
    let table: &[(&str, BodyUse)] = &[
        (
            "POST /swift/v1/AUTH_acme/box HTTP/1.1\r\nHost: h\r\nContent-Length: 5\r\n\r\n",
            BodyUse::Dropped,
        ),
        (
            "POST /swift/v1/AUTH_acme/box HTTP/1.1\r\nHost: h\r\nContent-Length: 5368709121\r\n\r\n",
            BodyUse::Unread,
        ),
        (
            "PUT /swift/v1/AUTH_acme/box HTTP/1.1\r\nHost: h\r\nX-Auth-Token: AUTH_tk1\r\nContent-Length: 5\r\nExpect: 100-continue\r\n\r\n",
            BodyUse::Unread,
        ),
        (
            "PUT /swift/v1/AUTH_acme/box/k HTTP/1.1\r\nHost: h\r\nContent-Length: 5\r\nExpect: 100-continue\r\n\r\n",
            BodyUse::Unread,
        ),
        (
            "PUT /swift/v1/AUTH_acme/box/k HTTP/1.1\r\nHost: h\r\nX-Auth-Token: AUTH_tk1\r\nContent-Length: 5\r\nExpect: 100-continue\r\n\r\n",
            BodyUse::Awaited,
        ),
        (
            "GET /auth HTTP/1.1\r\nHost: h\r\nContent-Length: 5\r\nX-Auth-User: acme:ann\r\nX-Auth-Key: secret\r\n\r\n",
            BodyUse::Dropped,
        ),
    ];
    for (text, want) in table {
        assert_eq!(rt; body_behind(rt.alloc(), text)?, *want);
    }
    Ok(())
}
