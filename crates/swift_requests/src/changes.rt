//! What a request changes of a container.
ghost use Rattle.std.specs.Prelude.{◌≡◌, ◌&&◌, IfOk, true, map};
ghost use Rattle.std.specs.Char.{to_ascii_lowercase};
ghost use Rattle.http_model.specs.Framings.{value_of};
ghost use Rattle.swift_requests.specs.Fields.{is_text_field};
ghost use Rattle.swift_requests.specs.Metadata.{are_texts};
ghost use Rattle.swift_requests.specs.Changes.{has_front, name_behind, changes_of, set_count, are_within_limits, has_change_texts, container_changes};

use crate::form::{is_text, is_text_field};
use crate::metadata::{MOST_PAIRS, is_within};
use http_model::{Field, Head, field_value};
use http1::text::eq_ignore_case;
use rgw_types::{Bytes, Pairs, Text};
use std::alloc::{AllocError, Global};
use std::collections::BTreeMap;
use std::marker::Model;
use task_container::ContainerChanges;

/// What the name of a field that sets metadata begins with, in any case.
const META_PREFIX: &str = "x-container-meta-";

/// What the name of a field that removes metadata begins with, in any case.
const REMOVAL_PREFIX: &str = "x-remove-container-meta-";

/// The metadata that a request sets and removes, by rising name, with their values as they were sent; an empty
/// value removes.
#[derive(Drop)]
pub(crate) struct SentChanges {
    pairs: BTreeMap<Text, Bytes>,
}

impl Model for SentChanges {
    ghost use Rattle.std.specs.Prelude.{ℕ, List};

    ghost Value = { List (List ℕ × List ℕ) };

    ghost view = { λ sent. sent.pairs.entries };
}

impl SentChanges {
    /// What these fields say. Of the fields for one name the last counts.
    #[tactic(auto, unfolding(crate::specs::Changes::changes_of))]
    pub(crate) fn read(alloc: Global, fields: &[Field]) -> Result<SentChanges, AllocError>
        ensures { IfOk result (λ sent. sent ≡ changes_of fields.now) }
    {
        let mut pairs = BTreeMap::new(alloc);
        for field in fields {
            if has_front(field, META_PREFIX) {
                let name = name_behind(alloc, field, META_PREFIX)?;
                let value = Bytes::from_slice(alloc, field.value.as_slice())?;
                pairs.insert(name, value)?;
            } else if has_front(field, REMOVAL_PREFIX) {
                let name = name_behind(alloc, field, REMOVAL_PREFIX)?;
                pairs.insert(name, Bytes::new(alloc))?;
            }
        }
        Ok(SentChanges { pairs })
    }

    /// Whether each value is UTF-8.
    fn are_texts(&self) -> bool
        ensures { result ≡ are_texts self.now }
    {
        self.pairs.values().all(|value| is_text(value.as_slice()))
    }

    /// Whether at most 90 names are set, and each name has 1 to 128 bytes and each value at most 256 bytes.
    pub(crate) fn are_within_limits(&self) -> bool
        ensures { result ≡ are_within_limits self.now }
    {
        self.set_count() <= MOST_PAIRS
            && self
                .pairs
                .iter()
                .all(|(name, value)| is_within(name, value))
    }

    /// How many names are set.
    fn set_count(&self) -> usize
        ensures { result ≡ set_count self.now }
    {
        self.pairs
            .values()
            .filter(|value| !value.is_empty())
            .count()
    }

    /// The pairs, whose values are text.
    fn into_pairs(self, alloc: Global) -> Result<Pairs, AllocError>
        requires { are_texts self ≡ true }
        ensures { IfOk result (λ pairs. pairs ≡ self) }
    {
        let SentChanges { pairs } = self;
        let mut texts = Vec::new(alloc);
        for (name, value) in pairs {
            texts.push((name, Text::from_utf8(alloc, value.as_slice())?))?;
        }
        Ok(Pairs::from_vec(texts).unwrap())
    }
}

/// Whether the name of the field begins so, in any case.
fn has_front(field: &Field, prefix: &str) -> bool
    requires { map to_ascii_lowercase prefix.now ≡ prefix.now }
    ensures { result ≡ has_front prefix.now field.now }
{
    let name = field.name.as_bytes();
    let front = &name[..prefix.len().min(name.len())];
    eq_ignore_case(prefix.as_bytes(), front)
}

/// What stands behind that, in lower case.
fn name_behind(alloc: Global, field: &Field, prefix: &str) -> Result<Text, AllocError>
    requires { has_front prefix.now field.now ≡ true }
    ensures { IfOk result (λ name. name ≡ name_behind prefix.now field.now) }
{
    let name = field.name.as_str().to_ascii_lowercase(alloc)?;
    Text::from_str(alloc, name.strip_prefix(prefix).unwrap())
}

/// Whether what is to be text is UTF-8: the metadata, the read list and the write list.
#[tactic(auto, unfolding(crate::specs::Changes::has_change_texts))]
pub(crate) fn has_change_texts(head: &Head, sent: &SentChanges) -> bool
    requires { sent.now ≡ changes_of head.now.fields }
    ensures { result ≡ has_change_texts head.now }
{
    sent.are_texts()
        && is_text_field(head, b"x-container-read")
        && is_text_field(head, b"x-container-write")
}

/// The value that counts of this name, where there is one; it is UTF-8.
fn text_of(alloc: Global, head: &Head, name: &[u8]) -> Result<Option<Text>, AllocError>
    requires { is_text_field name.now head.now ≡ true }
    ensures { IfOk result (λ text. text ≡ value_of name.now head.now.fields) }
{
    match field_value(head.fields.as_slice(), name) {
        Some(value) => Ok(Some(Text::from_utf8(alloc, value)?)),
        None => Ok(None),
    }
}

/// The whole change.
pub(crate) fn container_changes(
    alloc: Global,
    head: &Head,
    sent: SentChanges,
) -> Result<ContainerChanges, AllocError>
    requires sent { sent ≡ changes_of head.now.fields }
    requires texts { has_change_texts head.now ≡ true }
    ensures { IfOk result (λ changes. changes ≡ container_changes head.now) }
{
    Ok(ContainerChanges {
        meta: sent.into_pairs(alloc)?,
        readers: text_of(alloc, head, b"x-container-read")?,
        writers: text_of(alloc, head, b"x-container-write")?,
    })
}
