//! The metadata that a request sends with an object.
ghost use Rattle.std.specs.Prelude.{◌≡◌, IfOk, true, drop, length, map, nat_eq, codes};
ghost use Rattle.std.specs.List.{list_all, starts_with};
ghost use Rattle.std.specs.Char.{to_ascii_lowercase};
ghost use Rattle.swift_requests.specs.Metadata.{is_meta, pair_name, meta_of, are_texts, is_within, are_within};

use crate::form::is_text;
use http_model::Field;
use http1::text::eq_ignore_case;
use rgw_types::{Bytes, Pairs, Text};
use std::alloc::{AllocError, Global};
use std::collections::BTreeMap;
use std::marker::Model;

/// What the name of a field of metadata begins with, in any case.
const META_PREFIX: &str = "x-object-meta-";

/// The most pairs.
pub(crate) const MOST_PAIRS: usize = 90;

/// The most bytes of a pair's name.
const NAME_LIMIT: usize = 128;

/// The most bytes of a pair's value.
const VALUE_LIMIT: usize = 256;

/// The pairs that a request sends, by rising name, with their values as they were sent.
#[derive(Drop)]
pub(crate) struct SentMetadata {
    pairs: BTreeMap<Text, Bytes>,
}

impl Model for SentMetadata {
    ghost use Rattle.std.specs.Prelude.{ℕ, List};

    ghost Value = { List (List ℕ × List ℕ) };

    ghost view = { λ sent. sent.pairs.entries };
}

impl SentMetadata {
    /// The pairs of these fields. Of a repeated name the last value counts.
    #[tactic(auto, unfolding(crate::specs::Metadata::meta_of))]
    pub(crate) fn read(alloc: Global, fields: &[Field]) -> Result<SentMetadata, AllocError>
        ensures { IfOk result (λ sent. sent ≡ meta_of fields.now) }
    {
        let mut pairs = BTreeMap::new(alloc);
        for field in fields {
            if is_meta(field) {
                let name = pair_name(alloc, field)?;
                let value = Bytes::from_slice(alloc, field.value.as_slice())?;
                pairs.insert(name, value)?;
            }
        }
        Ok(SentMetadata { pairs })
    }

    /// Whether each value is UTF-8.
    pub(crate) fn are_texts(&self) -> bool
        ensures { result ≡ are_texts self.now }
    {
        self.pairs.values().all(|value| is_text(value.as_slice()))
    }

    /// Whether there are at most 90 pairs, with names of 1 to 128 bytes and values of at most 256 bytes.
    pub(crate) fn are_within(&self) -> bool
        ensures { result ≡ are_within self.now }
    {
        self.pairs.len() <= MOST_PAIRS
            && self
                .pairs
                .iter()
                .all(|(name, value)| is_within(name, value))
    }

    /// The pairs, whose values are text.
    pub(crate) fn into_pairs(self, alloc: Global) -> Result<Pairs, AllocError>
        requires { are_texts self ≡ true }
        ensures { IfOk result (λ pairs. pairs ≡ self) }
    {
        let SentMetadata { pairs } = self;
        let mut texts = Vec::new(alloc);
        for (name, value) in pairs {
            texts.push((name, Text::from_utf8(alloc, value.as_slice())?))?;
        }
        Ok(Pairs::from_vec(texts).unwrap())
    }
}

/// Whether the field sends a pair.
fn is_meta(field: &Field) -> bool
    ensures { result ≡ is_meta field.now }
{
    let name = field.name.as_bytes();
    let front = &name[..META_PREFIX.len().min(name.len())];
    eq_ignore_case(META_PREFIX.as_bytes(), front)
}

/// The name of the pair that the field sends, in lower case.
fn pair_name(alloc: Global, field: &Field) -> Result<Text, AllocError>
    requires { is_meta field.now ≡ true }
    ensures { IfOk result (λ name. name ≡ pair_name field.now) }
{
    let name = field.name.as_str().to_ascii_lowercase(alloc)?;
    Text::from_str(alloc, name.strip_prefix(META_PREFIX).unwrap())
}

/// Whether a pair has a name of 1 to 128 bytes and a value of at most 256 bytes.
pub(crate) fn is_within(name: &Text, value: &Bytes) -> bool
    ensures { result ≡ is_within (name.now, value.now) }
{
    !name.is_empty() && name.len() <= NAME_LIMIT && value.len() <= VALUE_LIMIT
}
