ghost use Rattle.std.specs.Prelude.{◌≡◌, ◌++◌, ◌≤◌, ℕ, List, None, length};
ghost use Rattle.rgw_types.specs.declared.stamp.Stamp.{Stamp as StampOf};
ghost use Rattle.object_words.specs.Heads.{Head, etag_of, manifest_of, seen_stamp};
ghost use Rattle.cls_head.specs.Layouts.{IsWritten, head_bytes, texts_of};

use crate::pieces::number;
use manifest::ManifestBytes;
use rgw_types::{Manifest, Stamp};

/// The kind of a slot that is live.
pub(crate) const LIVE: u8 = 1;

/// How many bytes a manifest has.
const MANIFEST_LEN: usize = 21;

/// How many bytes an ETag has.
const ETAG_LEN: usize = 16;

/// What the attributes of a head say before its texts, as far as the slot has it, and the texts behind.
#[derive(Clone, Copy, Debug)]
pub(crate) struct Front<'a> {
    pub(crate) version: u64,
    pub(crate) stamp: Option<Stamp>,
    pub(crate) etag: Option<[u8; 16]>,
    pub(crate) manifest: Option<Manifest>,
    pub(crate) texts: &'a [u8],
}

/// The front of a head.
pub(crate) fn read_front(attrs: &[u8]) -> Front<'_>
    requires { (h : Head) × IsWritten h × (attrs.now ≡ head_bytes h) }
    ensures version { (h : Head) → IsWritten h → attrs.now ≡ head_bytes h → result.version ≡ h.version }
    ensures stamp { (h : Head) → IsWritten h → attrs.now ≡ head_bytes h → result.stamp ≡ seen_stamp h.slot }
    ensures etag { (h : Head) → IsWritten h → attrs.now ≡ head_bytes h → result.etag ≡ etag_of h.slot }
    ensures manifest { (h : Head) → IsWritten h → attrs.now ≡ head_bytes h → result.manifest ≡ manifest_of h.slot }
    ensures texts { (h : Head) → IsWritten h → attrs.now ≡ head_bytes h → result.texts.now ≡ texts_of h.slot }
{
    if attrs.is_empty() {
        return Front {
            version: 0,
            stamp: None,
            etag: None,
            manifest: None,
            texts: attrs,
        };
    }
    let (version, rest) = number(&attrs[3..]);
    let (micros, rest) = number(rest);
    let stamp = Some(Stamp {
        micros,
        zone: rest[0],
    });
    let rest = &rest[1..];
    if attrs[2] != LIVE {
        return Front {
            version,
            stamp,
            etag: None,
            manifest: None,
            texts: rest,
        };
    }
    let (etag_bytes, rest) = rest.split_at(ETAG_LEN);
    let mut etag = [0; ETAG_LEN];
    etag.copy_from_slice(etag_bytes);
    let (manifest, texts) = rest.split_at(MANIFEST_LEN);
    Front {
        version,
        stamp,
        etag: Some(etag),
        manifest: Manifest::decode(manifest),
        texts,
    }
}
