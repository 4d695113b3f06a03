//! Known connections.
use crate::host::{realm_with_box, serve, small};
use std::alloc::Global;

/// Connections to one realm, one after another.
#[derive(Clone, Copy, Debug)]
struct Scene {
    title: &'static str,
    /// How many frames of 16 bytes the realm has.
    frames: u32,
    connections: &'static [&'static [u8]],
}

const SCENES: &[Scene] = &[
    Scene {
        title: "an object is put and got; who is not known, and what is not there",
        frames: 64,
        connections: &[
            b"PUT /swift/v1/AUTH_acme/box/k HTTP/1.1\r\nHost: h\r\nX-Auth-Token: AUTH_tk1\r\nContent-Type: text/plain\r\nContent-Length: 5\r\n\r\nhelloGET /swift/v1/AUTH_acme/box/k HTTP/1.1\r\nHost: h\r\nX-Auth-Token: AUTH_tk1\r\n\r\nGET /swift/v1/AUTH_acme/box/k HTTP/1.1\r\nHost: h\r\n\r\nGET /swift/v1/AUTH_acme/box/m HTTP/1.1\r\nHost: h\r\nX-Auth-Token: AUTH_tk1\r\n\r\n",
        ],
    },
    Scene {
        title: "an empty object",
        frames: 64,
        connections: &[
            b"PUT /swift/v1/AUTH_acme/box/e HTTP/1.1\r\nHost: h\r\nX-Auth-Token: AUTH_tk1\r\nContent-Length: 0\r\n\r\nHEAD /swift/v1/AUTH_acme/box/e HTTP/1.1\r\nHost: h\r\nX-Auth-Token: AUTH_tk1\r\n\r\n",
        ],
    },
    Scene {
        title: "ranges over two stripes",
        frames: 64,
        connections: &[
            b"PUT /swift/v1/AUTH_acme/box/k HTTP/1.1\r\nHost: h\r\nX-Auth-Token: AUTH_tk1\r\nContent-Type: text/plain\r\nContent-Length: 26\r\n\r\nabcdefghijklmnopqrstuvwxyzGET /swift/v1/AUTH_acme/box/k HTTP/1.1\r\nHost: h\r\nX-Auth-Token: AUTH_tk1\r\nRange: bytes=15-16\r\n\r\nGET /swift/v1/AUTH_acme/box/k HTTP/1.1\r\nHost: h\r\nX-Auth-Token: AUTH_tk1\r\nRange: bytes=-1\r\n\r\nGET /swift/v1/AUTH_acme/box/k HTTP/1.1\r\nHost: h\r\nX-Auth-Token: AUTH_tk1\r\nRange: bytes=26-\r\n\r\nGET /swift/v1/AUTH_acme/box/k HTTP/1.1\r\nHost: h\r\nX-Auth-Token: AUTH_tk1\r\n\r\n",
        ],
    },
    Scene {
        title: "another ETag than that of the content",
        frames: 64,
        connections: &[
            b"PUT /swift/v1/AUTH_acme/box/k HTTP/1.1\r\nHost: h\r\nX-Auth-Token: AUTH_tk1\r\nETag: 00000000000000000000000000000000\r\nContent-Length: 17\r\n\r\nabcdefghijklmnopqGET /swift/v1/AUTH_acme/box/k HTTP/1.1\r\nHost: h\r\nX-Auth-Token: AUTH_tk1\r\n\r\n",
        ],
    },
    Scene {
        title: "an input that ends inside a body",
        frames: 64,
        connections: &[
            b"PUT /swift/v1/AUTH_acme/box/k HTTP/1.1\r\nHost: h\r\nX-Auth-Token: AUTH_tk1\r\nContent-Type: text/plain\r\nContent-Length: 5\r\n\r\nhel",
            b"GET /swift/v1/AUTH_acme/box/k HTTP/1.1\r\nHost: h\r\nX-Auth-Token: AUTH_tk1\r\n\r\n",
        ],
    },
    Scene {
        title: "a head that is none",
        frames: 64,
        connections: &[b"GET\r\n\r\n"],
    },
    Scene {
        title: "one frame, where an object needs two",
        frames: 1,
        connections: &[
            b"PUT /swift/v1/AUTH_acme/box/k HTTP/1.1\r\nHost: h\r\nX-Auth-Token: AUTH_tk1\r\nContent-Length: 26\r\n\r\nabcdefghijklmnopqrstuvwxyzGET /swift/v1/AUTH_acme/box/k HTTP/1.1\r\nHost: h\r\nX-Auth-Token: AUTH_tk1\r\n\r\n",
        ],
    },
    Scene {
        title: "two frames, and then none is left",
        frames: 2,
        connections: &[
            b"PUT /swift/v1/AUTH_acme/box/k HTTP/1.1\r\nHost: h\r\nX-Auth-Token: AUTH_tk1\r\nContent-Length: 26\r\n\r\nabcdefghijklmnopqrstuvwxyzPUT /swift/v1/AUTH_acme/box/a HTTP/1.1\r\nHost: h\r\nX-Auth-Token: AUTH_tk1\r\nContent-Length: 1\r\n\r\na",
        ],
    },
    Scene {
        title: "two clients by turns",
        frames: 64,
        connections: &[
            b"PUT /swift/v1/AUTH_acme/box/k HTTP/1.1\r\nHost: h\r\nX-Auth-Token: AUTH_tk1\r\nContent-Type: text/plain\r\nContent-Length: 5\r\n\r\nhello",
            b"GET /swift/v1/AUTH_acme/box/k HTTP/1.1\r\nHost: h\r\nX-Auth-Token: AUTH_tk1\r\n\r\nPUT /swift/v1/AUTH_acme/box/k HTTP/1.1\r\nHost: h\r\nX-Auth-Token: AUTH_tk1\r\nContent-Type: text/plain\r\nContent-Length: 3\r\n\r\nabc",
            b"GET /swift/v1/AUTH_acme/box/k HTTP/1.1\r\nHost: h\r\nX-Auth-Token: AUTH_tk1\r\nIf-None-Match: \"5d41402abc4b2a76b9719d911017c592\"\r\n\r\nGET /swift/v1/AUTH_acme/box/k HTTP/1.1\r\nHost: h\r\nX-Auth-Token: AUTH_tk1\r\nIf-Match: \"5d41402abc4b2a76b9719d911017c592\"\r\n\r\n",
        ],
    },
    Scene {
        title: "a name with escapes, and metadata",
        frames: 64,
        connections: &[
            b"PUT /swift/v1/AUTH_acme/box/a%2Fb%20c HTTP/1.1\r\nHost: h\r\nX-Auth-Token: AUTH_tk1\r\nX-Object-Meta-Color: red\r\nx-object-meta-A: 1\r\nContent-Length: 5\r\n\r\nhelloGET /swift/v1/AUTH_acme/box/a/b%20c?unknown=x HTTP/1.0\r\nX-Auth-Token: AUTH_tk1\r\n\r\n",
        ],
    },
    Scene {
        title: "what a target and the fields are refused for",
        frames: 64,
        connections: &[
            b"GET /swift/v2/AUTH_acme/box/k HTTP/1.1\r\nHost: h\r\n\r\nGET /swift/v1/AUTH_acme/box/%G1 HTTP/1.1\r\nHost: h\r\n\r\nPUT /swift/v1/AUTH_acme/box/k HTTP/1.1\r\nHost: h\r\nX-Auth-Token: AUTH_tk1\r\nX-Object-Meta-: x\r\nContent-Length: 5\r\n\r\nhelloDELETE /swift/v1/AUTH_acme/box/k HTTP/1.1\r\nHost: h\r\n\r\n",
        ],
    },
    Scene {
        title: "the names of a container",
        frames: 64,
        connections: &[
            b"PUT /swift/v1/AUTH_acme/box/a/1 HTTP/1.1\r\nHost: h\r\nX-Auth-Token: AUTH_tk1\r\nContent-Type: text/plain\r\nContent-Length: 5\r\n\r\nhelloPUT /swift/v1/AUTH_acme/box/b HTTP/1.1\r\nHost: h\r\nX-Auth-Token: AUTH_tk1\r\nContent-Length: 0\r\n\r\nGET /swift/v1/AUTH_acme/box HTTP/1.1\r\nHost: h\r\nX-Auth-Token: AUTH_tk1\r\n\r\nGET /swift/v1/AUTH_acme/box/?delimiter=%2F HTTP/1.1\r\nHost: h\r\nX-Auth-Token: AUTH_tk1\r\n\r\nGET /swift/v1/AUTH_acme/box?prefix=a&format=json HTTP/1.1\r\nHost: h\r\nX-Auth-Token: AUTH_tk1\r\n\r\nGET /swift/v1/AUTH_acme/box?marker=c HTTP/1.1\r\nHost: h\r\nX-Auth-Token: AUTH_tk1\r\n\r\nGET /swift/v1/AUTH_acme/box HTTP/1.1\r\nHost: h\r\n\r\nGET /swift/v1/AUTH_acme/other HTTP/1.1\r\nHost: h\r\nX-Auth-Token: AUTH_tk1\r\n\r\n",
        ],
    },
    Scene {
        title: "a container walked page by page, and as a tree",
        frames: 64,
        connections: &[
            b"PUT /swift/v1/AUTH_acme/box/a/1 HTTP/1.1\r\nHost: h\r\nX-Auth-Token: AUTH_tk1\r\nContent-Length: 0\r\n\r\nPUT /swift/v1/AUTH_acme/box/a%2F2 HTTP/1.1\r\nHost: h\r\nX-Auth-Token: AUTH_tk1\r\nContent-Length: 0\r\n\r\nPUT /swift/v1/AUTH_acme/box/b HTTP/1.1\r\nHost: h\r\nX-Auth-Token: AUTH_tk1\r\nContent-Length: 0\r\n\r\n",
            b"GET /swift/v1/AUTH_acme/box?limit=2 HTTP/1.1\r\nHost: h\r\nX-Auth-Token: AUTH_tk1\r\n\r\nGET /swift/v1/AUTH_acme/box?limit=2&marker=a%2F2 HTTP/1.1\r\nHost: h\r\nX-Auth-Token: AUTH_tk1\r\n\r\nGET /swift/v1/AUTH_acme/box?limit=2&marker=b HTTP/1.1\r\nHost: h\r\nX-Auth-Token: AUTH_tk1\r\n\r\n",
            b"GET /swift/v1/AUTH_acme/box?delimiter=/&limit=1 HTTP/1.1\r\nHost: h\r\nX-Auth-Token: AUTH_tk1\r\n\r\nGET /swift/v1/AUTH_acme/box?delimiter=/&limit=2&marker=a/ HTTP/1.1\r\nHost: h\r\nX-Auth-Token: AUTH_tk1\r\n\r\nGET /swift/v1/AUTH_acme/box?prefix=a/&delimiter=/ HTTP/1.1\r\nHost: h\r\nX-Auth-Token: AUTH_tk1\r\n\r\nGET /swift/v1/AUTH_acme/box?delimiter=/&end_marker=b HTTP/1.1\r\nHost: h\r\nX-Auth-Token: AUTH_tk1\r\n\r\nGET /swift/v1/AUTH_acme/box?format=json&delimiter=/&extra=1 HTTP/1.1\r\nHost: h\r\nX-Auth-Token: AUTH_tk1\r\n\r\nGET /swift/v1/AUTH_acme/box?format=json&prefix=z HTTP/1.1\r\nHost: h\r\nX-Auth-Token: AUTH_tk1\r\n\r\n",
            b"GET /swift/v1/AUTH_acme/box?limit=0 HTTP/1.1\r\nHost: h\r\nX-Auth-Token: AUTH_tk1\r\n\r\nGET /swift/v1/AUTH_acme/box?limit=ten HTTP/1.1\r\nHost: h\r\nX-Auth-Token: AUTH_tk1\r\n\r\nGET /swift/v1/AUTH_acme/box?format=xml HTTP/1.1\r\nHost: h\r\nX-Auth-Token: AUTH_tk1\r\n\r\n",
        ],
    },
    Scene {
        title: "bodies in chunks, and chunks that go wrong",
        frames: 64,
        connections: &[
            b"PUT /swift/v1/AUTH_acme/box/k HTTP/1.1\r\nHost: h\r\nX-Auth-Token: AUTH_tk1\r\nContent-Type: text/plain\r\nTransfer-Encoding: chunked\r\n\r\n5\r\nhello\r\n1;note=x\r\n!\r\n0\r\n\r\nGET /swift/v1/AUTH_acme/box/k HTTP/1.1\r\nHost: h\r\nX-Auth-Token: AUTH_tk1\r\nTransfer-Encoding: chunked\r\n\r\n3\r\nabc\r\n0\r\nTrailer: x\r\n\r\nHEAD /swift/v1/AUTH_acme/box/k HTTP/1.1\r\nHost: h\r\nX-Auth-Token: AUTH_tk1\r\n\r\n",
            b"PUT /swift/v1/AUTH_acme/box/m HTTP/1.1\r\nHost: h\r\nX-Auth-Token: AUTH_tk1\r\nTransfer-Encoding: chunked\r\n\r\n5\r\nhello\r\nx\r\nGET /swift/v1/AUTH_acme/box/k HTTP/1.1\r\nHost: h\r\nX-Auth-Token: AUTH_tk1\r\n\r\n",
            b"GET /swift/v1/AUTH_acme/box/m HTTP/1.1\r\nHost: h\r\nX-Auth-Token: AUTH_tk1\r\n\r\n",
            b"PUT /swift/v1/AUTH_acme/other/k HTTP/1.1\r\nHost: h\r\nX-Auth-Token: AUTH_tk1\r\nTransfer-Encoding: chunked\r\n\r\n1\r\na\r\nx\r\n",
            b"GET /swift/v1/AUTH_acme/box/k HTTP/1.1\r\nHost: h\r\nX-Auth-Token: AUTH_tk1\r\nTransfer-Encoding: chunked\r\n\r\nx\r\n",
            b"GET /swift/v1/AUTH_acme/box HTTP/1.1\r\nHost: h\r\nX-Auth-Token: AUTH_tk1\r\nTransfer-Encoding: chunked\r\n\r\n1\r\na\r\n0\r\n\r\nGET /swift/v1/AUTH_acme/box HTTP/1.1\r\nHost: h\r\nX-Auth-Token: AUTH_tk1\r\nTransfer-Encoding: chunked\r\n\r\nx\r\n",
            b"PUT /swift/v1/AUTH_acme/box/m HTTP/1.1\r\nHost: h\r\nX-Auth-Token: AUTH_tk1\r\nTransfer-Encoding: chunked\r\n\r\n5\r\nhel",
        ],
    },
    Scene {
        title: "clients that wait for a 100",
        frames: 64,
        connections: &[
            b"PUT /swift/v1/AUTH_acme/box/k HTTP/1.1\r\nHost: h\r\nX-Auth-Token: AUTH_tk1\r\nContent-Type: text/plain\r\nExpect: 100-continue\r\nContent-Length: 5\r\n\r\nhelloPUT /swift/v1/AUTH_acme/box/m HTTP/1.1\r\nHost: h\r\nX-Auth-Token: AUTH_tk1\r\nEXPECT: 100-Continue\r\nTransfer-Encoding: chunked\r\n\r\n5\r\nhello\r\n0\r\n\r\nGET /swift/v1/AUTH_acme/box/k HTTP/1.1\r\nHost: h\r\nX-Auth-Token: AUTH_tk1\r\n\r\n",
            b"PUT /swift/v1/AUTH_acme/other/k HTTP/1.1\r\nHost: h\r\nX-Auth-Token: AUTH_tk1\r\nExpect: 100-continue\r\nContent-Length: 5\r\n\r\nhelloGET /swift/v1/AUTH_acme/box/k HTTP/1.1\r\nHost: h\r\nX-Auth-Token: AUTH_tk1\r\n\r\n",
            b"GET /swift/v1/AUTH_acme/box/k HTTP/1.1\r\nHost: h\r\nX-Auth-Token: AUTH_tk1\r\nExpect: 100-continue\r\nContent-Length: 5\r\n\r\nhello",
            b"PUT /swift/v1/AUTH_acme/box/n HTTP/1.1\r\nHost: h\r\nX-Auth-Token: AUTH_tk1\r\nExpect: 100-continue\r\nContent-Length: 5\r\n\r\nhel",
            b"GET /swift/v1/AUTH_acme/box HTTP/1.1\r\nHost: h\r\nX-Auth-Token: AUTH_tk1\r\nExpect: 100-continue\r\n\r\nGET /swift/v1/AUTH_acme/box HTTP/1.1\r\nHost: h\r\nX-Auth-Token: AUTH_tk1\r\n\r\n",
            b"PUT /swift/v1/AUTH_acme/box/n HTTP/1.1\r\nHost: h\r\nX-Auth-Token: AUTH_tk1\r\nExpect: 200-ok\r\nContent-Length: 5\r\n\r\nhello",
        ],
    },
    Scene {
        title: "a user is let in, makes a container, lists the account, and removes the container",
        frames: 64,
        connections: &[
            b"GET /auth/v1.0 HTTP/1.1\r\nHost: h\r\nX-Auth-User: acme:ann\r\nX-Auth-Key: secret\r\n\r\nPUT /swift/v1/AUTH_acme/own HTTP/1.1\r\nHost: h\r\nX-Auth-Token: AUTH_tk1\r\n\r\nPUT /swift/v1/AUTH_acme/own HTTP/1.1\r\nHost: h\r\nX-Auth-Token: AUTH_tk1\r\nX-Container-Meta-Color: red\r\n\r\nPOST /swift/v1/AUTH_acme/own HTTP/1.1\r\nHost: h\r\nX-Auth-Token: AUTH_tk1\r\nX-Container-Read: .r:*,.rlistings\r\n\r\nHEAD /swift/v1/AUTH_acme/own HTTP/1.1\r\nHost: h\r\nX-Auth-Token: AUTH_tk1\r\n\r\nHEAD /swift/v1/AUTH_acme/own HTTP/1.1\r\nHost: h\r\n\r\nGET /swift/v1/AUTH_acme HTTP/1.1\r\nHost: h\r\nX-Auth-Token: AUTH_tk1\r\n\r\nGET /swift/v1/AUTH_acme?format=json HTTP/1.1\r\nHost: h\r\nX-Auth-Token: AUTH_tk1\r\n\r\nHEAD /swift/v1/AUTH_acme HTTP/1.1\r\nHost: h\r\nX-Auth-Token: AUTH_tk1\r\n\r\nDELETE /swift/v1/AUTH_acme/own HTTP/1.1\r\nHost: h\r\nX-Auth-Token: AUTH_tk1\r\n\r\nDELETE /swift/v1/AUTH_acme/own HTTP/1.1\r\nHost: h\r\nX-Auth-Token: AUTH_tk1\r\n\r\nGET /swift/v1/AUTH_acme HTTP/1.1\r\nHost: h\r\nX-Auth-Token: AUTH_tk1\r\n\r\n",
        ],
    },
    Scene {
        title: "a container that is not empty stays",
        frames: 64,
        connections: &[
            b"PUT /swift/v1/AUTH_acme/box/k HTTP/1.1\r\nHost: h\r\nX-Auth-Token: AUTH_tk1\r\nContent-Type: text/plain\r\nContent-Length: 5\r\n\r\nhelloDELETE /swift/v1/AUTH_acme/box HTTP/1.1\r\nHost: h\r\nX-Auth-Token: AUTH_tk1\r\n\r\nGET /swift/v1/AUTH_acme?format=json HTTP/1.1\r\nHost: h\r\nX-Auth-Token: AUTH_tk1\r\n\r\nHEAD /swift/v1/AUTH_acme HTTP/1.1\r\nHost: h\r\nX-Auth-Token: AUTH_tk1\r\n\r\nGET /swift/v1/AUTH_acme/box/k HTTP/1.1\r\nHost: h\r\nX-Auth-Token: AUTH_tk1\r\n\r\n",
        ],
    },
    Scene {
        title: "who is not let in, and what a user may not do",
        frames: 64,
        connections: &[
            b"GET /auth/v1.0 HTTP/1.1\r\nHost: h\r\nX-Auth-User: acme:ann\r\nX-Auth-Key: other\r\n\r\nGET /swift/v1/AUTH_acme HTTP/1.1\r\nHost: h\r\n\r\nGET /swift/v1/AUTH_acme HTTP/1.1\r\nHost: h\r\nX-Auth-Token: AUTH_tk2\r\n\r\nGET /swift/v1/AUTH_beta HTTP/1.1\r\nHost: h\r\nX-Auth-Token: AUTH_tk1\r\n\r\nPUT /swift/v1/AUTH_beta/own HTTP/1.1\r\nHost: h\r\nX-Auth-Token: AUTH_tk1\r\n\r\nHEAD /swift/v1/AUTH_acme/box HTTP/1.1\r\nHost: h\r\n\r\nPOST /auth/v1.0 HTTP/1.1\r\nHost: h\r\nX-Auth-Token: AUTH_tk1\r\n\r\nDELETE /swift/v1/AUTH_acme HTTP/1.1\r\nHost: h\r\nX-Auth-Token: AUTH_tk1\r\n\r\nGET /swift/v1/AUTH_acme/box/k HTTP/1.1\r\nHost: h\r\nX-Auth-Token: AUTH_tk1\r\n\r\n",
        ],
    },
];

/// Serves the connections of each scene to a realm of its own.
pub fn serve_scenes<R: Print>(rt: &R, alloc: Global) -> anyhow::Result<()> {
    for scene in SCENES {
        let title = scene.title;
        println!(rt; "== {title}")?;
        serve_scene(rt, alloc, scene)?;
    }
    Ok(())
}

fn serve_scene<R: Print>(rt: &R, alloc: Global, scene: &Scene) -> anyhow::Result<()> {
    let settings = small(scene.frames)?;
    let mut stage = realm_with_box(alloc, &settings)?;
    for bytes in scene.connections {
        serve(rt, alloc, &mut stage, bytes)?;
    }
    Ok(())
}
