ghost use Rattle.std.specs.Prelude.{◌≡◌, ◌++◌, ◌≤◌, ℕ, IfOk, length};
ghost use Rattle.object_words.specs.declared.head.NewHead.{NewHead as NewHeadOf};
ghost use Rattle.cls_head.specs.Layouts.{IsContent, change_bytes, content_bytes, texts_bytes};

use crate::front::LIVE;
use crate::pieces::{number, pairs, push_pairs, push_text, text};
use manifest::ManifestBytes;
use object_words::{MediaType, NewHead};
use rgw_types::{Bytes, Pairs, Stamp};
use std::alloc::{AllocError, Global};

/// The first byte of a head's attributes.
const KIND: u8 = 0xeb;

/// The number of the first layout.
const LAYOUT: u8 = 1;

/// The attributes of a live head.
pub(crate) fn encode(
    alloc: Global,
    version: u64,
    stamp: Stamp,
    new: &NewHead,
) -> Result<Bytes, AllocError>
    ensures form { IfOk result (λ bytes. bytes ≡ change_bytes 1 version stamp (content_bytes new.now)) }
    ensures bounds { IfOk result (λ bytes. IsContent new.now) }
{
    let mut bytes = Bytes::from_slice(alloc, &[KIND, LAYOUT, LIVE])?;
    bytes.extend(&version.to_be_bytes())?;
    bytes.extend(&stamp.micros.to_be_bytes())?;
    bytes.extend(&[stamp.zone])?;
    bytes.extend(&new.etag)?;
    bytes.extend(&new.manifest.encode())?;
    push_text(&mut bytes, new.kind.as_text())?;
    bytes.extend(&(new.meta.len() as u64).to_be_bytes())?;
    push_pairs(&mut bytes, new.meta.as_slice())?;
    Ok(bytes)
}

/// The type and the metadata of a live head.
pub(crate) fn read_texts(alloc: Global, texts: &[u8]) -> Result<(MediaType, Pairs), AllocError>
    requires { (new : NewHeadOf) × IsContent new × (texts.now ≡ texts_bytes new) }
    ensures kind { IfOk result (λ read. (new : NewHeadOf) → IsContent new → texts.now ≡ texts_bytes new → read.0 ≡ new.kind) }
    ensures meta { IfOk result (λ read. (new : NewHeadOf) → IsContent new → texts.now ≡ texts_bytes new → read.1 ≡ new.meta) }
{
    let (kind, rest) = text(alloc, texts)?;
    let (count, rest) = number(rest);
    let meta = pairs(alloc, rest, count)?;
    Ok((MediaType::new(kind).unwrap(), meta))
}
