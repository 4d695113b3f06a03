// What no clause says: that the calls come to a good end.
use http_model::{Head, read_head};
use object_words::EtagRule;
use std::alloc::Global;
use std::test::Fail;
use swift_auth::Users;
use swift_requests::{Asked, BodyUse, UnfedCommand, body_use, closes, read_asked};
use task_words::{GetCommand, PutCommand, Span};

const LARGEST: u64 = 5_368_709_120;

fn head_of(alloc: Global, text: &[u8]) -> Result<Head, Fail> {
    Ok(read_head(alloc, text).ok().ok_or("no head")?)
}

fn put_in(asked: &Asked) -> Option<&PutCommand> {
    match asked {
        Asked::Put { command, .. } => Some(command),
        _other => None,
    }
}

fn get_in(asked: &Asked) -> Option<&GetCommand> {
    match asked {
        Asked::Unfed {
            command: UnfedCommand::Get(get),
            ..
        } => Some(get),
        _other => None,
    }
}

fn count_of(rule: &Option<EtagRule>) -> usize {
    match rule {
        Some(EtagRule::OneOf(etags)) => etags.len(),
        Some(EtagRule::Any) | None => 0,
    }
}

fn is_text_put(put: &PutCommand) -> bool {
    put.container.as_text().is("box")
        && put.name.as_text().is("k.txt")
        && put
            .kind
            .as_ref()
            .is_some_and(|kind| kind.as_text().is("text/plain"))
        && put
            .etag
            .as_ref()
            .is_some_and(|etag| etag.is("5d41402abc4b2a76b9719d911017c592"))
        && matches!(put.when.matches, Some(EtagRule::Any))
        && count_of(&put.when.none) == 2
}

fn has_metadata(put: &PutCommand) -> bool {
    put.container.as_text().is("c d")
        && put.name.as_text().is("a/é")
        && put.meta.len() == 2
        && put.meta.get("color").is_some_and(|color| color.is("red"))
        && put.meta.get("z").is_some_and(|last| last.is("é"))
}

fn is_span_get(get: &GetCommand) -> bool {
    get.when.modified == Some(784_111_777)
        && get.when.unmodified.is_none()
        && get.span == Some(Span::Between(500, 999))
        && get.body
}

#[test]
fn a_put_is_read(rt: HostRuntime) -> Result<(), Fail> {
    let head = head_of(
        rt.alloc(),
        b"PUT /swift/v1/AUTH_acme/box/k.txt HTTP/1.1\r\nHost: h\r\nX-Auth-Token: AUTH_tk1\r\nContent-Type: text/plain\r\nETag: \"5d41402abc4b2a76b9719d911017c592\"\r\nIf-Match: *\r\nIf-None-Match: \"r2d2xxxx\", c3piozzzz\r\nContent-Length: 5\r\n\r\n",
    )?;
    let users = Users::standard(rt.alloc())?;
    let asked = read_asked(rt.alloc(), &users, LARGEST, &head)?;
    drop(users);
    let right = put_in(&asked).is_some_and(|put| is_text_put(put));
    let plan = body_use(LARGEST, &head, &asked);
    drop(asked);
    let closes = closes(1, &head, false);
    drop(head);
    assert!(rt; right);
    assert_eq!(rt; plan, BodyUse::Fed);
    assert!(rt; !closes);
    Ok(())
}

#[test]
fn a_get_is_read(rt: HostRuntime) -> Result<(), Fail> {
    let head = head_of(
        rt.alloc(),
        b"GET /swift/v1/AUTH_acme/box/k HTTP/1.1\r\nHost: h\r\nX-Auth-Token: AUTH_tk1\r\nIf-Modified-Since: Sunday, 06-Nov-94 08:49:37 GMT\r\nRange: bytes=500-999\r\nConnection: close\r\n\r\n",
    )?;
    let users = Users::standard(rt.alloc())?;
    let asked = read_asked(rt.alloc(), &users, LARGEST, &head)?;
    drop(users);
    let right = get_in(&asked).is_some_and(|get| is_span_get(get));
    let plan = body_use(LARGEST, &head, &asked);
    drop(asked);
    let closes = closes(1, &head, false);
    drop(head);
    assert!(rt; right);
    assert_eq!(rt; plan, BodyUse::Dropped);
    assert!(rt; closes);
    Ok(())
}

#[test]
fn an_object_with_metadata(rt: HostRuntime) -> Result<(), Fail> {
    let head = head_of(
        rt.alloc(),
        b"PUT /swift/v1/AUTH_acme/c%20d/a/%C3%A9?x=1 HTTP/1.0\r\nX-Auth-Token: AUTH_tk1\r\nX-Object-Meta-Z: 1\r\nx-object-meta-Color: red\r\nX-Object-Meta-z: \xC3\xA9\r\nContent-Length: 0\r\n\r\n",
    )?;
    let users = Users::standard(rt.alloc())?;
    let asked = read_asked(rt.alloc(), &users, LARGEST, &head)?;
    drop(users);
    let right = put_in(&asked).is_some_and(|put| has_metadata(put));
    drop(asked);
    drop(head);
    assert!(rt; right);
    Ok(())
}

/// Whether a connection is closed behind its 99999th request, and whether behind its 100000th.
fn closes_late(head: &Head) -> [bool; 2] {
    [closes(99_999, head, false), closes(100_000, head, false)]
}

#[test]
fn a_connection_is_closed_behind_100000_requests(rt: HostRuntime) -> Result<(), Fail> {
    let head = head_of(
        rt.alloc(),
        b"GET /swift/v1/AUTH_acme/box/k HTTP/1.1\r\nHost: h\r\n\r\n",
    )?;
    let closed = closes_late(&head);
    drop(head);
    assert_eq!(rt; closed, [false, true]);
    Ok(())
}
