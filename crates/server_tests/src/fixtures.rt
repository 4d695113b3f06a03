// What the tests of servers begin with.
use gw_io::Clock;
use net_io::{ListConnection, ListNet};
use object_words::BucketName;
use realm_model::Settings;
use rgw_server::ServePlan;
use rgw_types::Text;
use std::alloc::{AllocError, Global};
use std::collections::VecDeque;
use std::sync::atomic::AtomicU64;
use std::sync::atomic::Ordering::SeqCst;
use std::sync::{Arc, Mutex, Wait};
use std::test::Fail;
use swift_auth::Users;

/// A PUT of `hello` and a GET of it.
pub const PUT_THEN_GET: &[u8] =
    b"PUT /swift/v1/AUTH_acme/box/k HTTP/1.1\r\nHost: h\r\nX-Auth-Token: AUTH_tk1\r\nContent-Length: 5\r\n\r\nhelloGET /swift/v1/AUTH_acme/box/k HTTP/1.1\r\nHost: h\r\nX-Auth-Token: AUTH_tk1\r\n\r\n";

/// What they are replied on the 14th of November 2023.
pub const STORED_AND_SHOWN: &[u8] =
    b"HTTP/1.1 201 Created\r\nContent-Length: 0\r\nETag: 5d41402abc4b2a76b9719d911017c592\r\nLast-Modified: Tue, 14 Nov 2023 22:13:20 GMT\r\n\r\nHTTP/1.1 200 OK\r\nContent-Length: 5\r\nContent-Type: application/octet-stream\r\nETag: 5d41402abc4b2a76b9719d911017c592\r\nLast-Modified: Tue, 14 Nov 2023 22:13:20 GMT\r\nAccept-Ranges: bytes\r\n\r\nhello";

pub const PUT: &[u8] =
    b"PUT /swift/v1/AUTH_acme/box/k HTTP/1.1\r\nHost: h\r\nX-Auth-Token: AUTH_tk1\r\nContent-Length: 5\r\n\r\nhello";

pub const STORED: &[u8] =
    b"HTTP/1.1 201 Created\r\nContent-Length: 0\r\nETag: 5d41402abc4b2a76b9719d911017c592\r\nLast-Modified: Tue, 14 Nov 2023 22:13:20 GMT\r\n\r\n";

/// The same an hour later.
pub const STORED_LATER: &[u8] =
    b"HTTP/1.1 201 Created\r\nContent-Length: 0\r\nETag: 5d41402abc4b2a76b9719d911017c592\r\nLast-Modified: Tue, 14 Nov 2023 23:13:20 GMT\r\n\r\n";

pub const GET: &[u8] =
    b"GET /swift/v1/AUTH_acme/box/k HTTP/1.1\r\nHost: h\r\nX-Auth-Token: AUTH_tk1\r\n\r\n";

pub const SHOWN: &[u8] =
    b"HTTP/1.1 200 OK\r\nContent-Length: 5\r\nContent-Type: application/octet-stream\r\nETag: 5d41402abc4b2a76b9719d911017c592\r\nLast-Modified: Tue, 14 Nov 2023 22:13:20 GMT\r\nAccept-Ranges: bytes\r\n\r\nhello";

/// The 14th of November 2023, and an hour later.
pub const EARLY: u64 = 1_700_000_000_000_000;

pub const LATE: u64 = 1_700_003_600_000_000;

/// How often a gate looks before it gives up.
pub const LOOKS: u32 = 10_000_000;

/// A clock that shares with its twins one count of the moments told, and the moment that they tell now.
#[derive(Clone, Copy)]
pub struct SharedClock<'a> {
    pub told: &'a AtomicU64,
    pub moment: &'a AtomicU64,
}

impl Clock for SharedClock<'_> {
    ghost use Rattle.std.specs.Prelude.{None};

    ghost told = { λ _. None };

    fn now(&mut self) -> u64 {
        self.told.fetch_add(1, SeqCst);
        self.moment.load(SeqCst)
    }

    fn twin(&self) -> Self {
        *self
    }
}

/// The users of a gateway to which none are given.
pub fn standard_users(alloc: Global) -> Result<Users, Fail> {
    match Users::standard(alloc) {
        Ok(users) => Ok(users),
        Err(_) => Err("no users")?,
    }
}

pub fn small_settings() -> Result<Settings, Fail> {
    let made = Settings::new(
        1,
        64,
        16,
        4096,
        11,
        120_000_000,
        7_200_000_000,
        1000,
        100_000,
    );
    Ok(made.ok_or("settings")?)
}

pub fn container(alloc: Global, name: &str) -> Result<BucketName, Fail> {
    let name = BucketName::new(Text::from_str(alloc, name)?).map_err(|_| "a name")?;
    Ok(name)
}

pub fn plan(alloc: Global, workers: u32, accepts: Option<u64>) -> Result<ServePlan, Fail> {
    Ok(ServePlan {
        port: 8080,
        workers,
        accepts,
        bucket: Some(container(alloc, "box")?),
    })
}

pub fn new_output(alloc: Global) -> Result<Arc<Mutex<Vec<u8>>>, AllocError> {
    Ok(Arc::new(alloc, Mutex::new(Vec::new(alloc)))?)
}

pub fn has_output<R: Wait>(rt: &R, output: &Arc<Mutex<Vec<u8>>>, wanted: &[u8]) -> bool {
    output.lock(rt).as_slice() == wanted
}

/// A net of two connections.
pub fn net_of<'a, R: Copy>(
    rt: R,
    alloc: Global,
    connections: [(&'a [u8], &Arc<Mutex<Vec<u8>>>); 2],
) -> Result<ListNet<'a, R>, AllocError> {
    let mut list = VecDeque::new(alloc);
    for (input, output) in connections {
        list.push_back(ListConnection {
            input,
            output: Arc::try_clone(output)?,
        })?;
    }
    Ok(ListNet::new(rt, alloc, list))
}
