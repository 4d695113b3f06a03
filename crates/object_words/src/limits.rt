//! Names and media types, with their limits in their types.
ghost use Rattle.std.specs.Prelude.{◌≡◌, ◌↔◌, ◌≤◌, ◌==◌, not, [], length, true, IfOk, IfErr, IsOk};
ghost use Rattle.std.specs.List.{list_all};
ghost use Rattle.object_words.specs.Limits.{is_name, media_type_limit};

use rgw_types::Text;
use std::alloc::{AllocError, Global};
use std::marker::Model;

/// A name of 1 to `MOST` bytes, none of which is 0.
#[derive(Debug, Drop)]
pub struct Name<const MOST: usize> {
    text: Text,
}

/// The name of an object: at most 1024 bytes.
pub type ObjectName = Name<1024>;

/// The name of a container: at most 256 bytes.
pub type BucketName = Name<256>;

impl<const MOST: usize> Model for Name<MOST> {
    ghost use Rattle.std.specs.Prelude.{◌≡◌, ℕ, List, true};
    ghost use Rattle.object_words.specs.Limits.{is_name};

    ghost Value = { List ℕ };

    ghost view = { λ name. name.text };

    ghost invariant = { λ name. is_name MOST name.text ≡ true };
}

impl<const MOST: usize> Name<MOST> {
    /// The name with this text, where it is within the limits; else the text back. Takes no memory.
    pub fn new(text: Text) -> Result<Name<MOST>, Text>
        ensures limits { IsOk result ↔ (is_name MOST text ≡ true) }
        ensures ok { IfOk result (λ name. name ≡ text) }
        ensures err { IfErr result (λ back. back ≡ text) }
    {
        if has_name(MOST, text.as_bytes()) {
            Ok(Name { text })
        } else {
            Err(text)
        }
    }

    /// Its text, lent.
    pub fn as_text(&self) -> &Text
        ensures text { result.now ≡ self.now }
        ensures limits { is_name MOST self.now ≡ true }
    {
        &self.text
    }

    /// Its text. Takes no memory.
    pub fn into_text(self) -> Text
        ensures text { result ≡ self.entry }
        ensures limits { is_name MOST self.entry ≡ true }
    {
        let Name { text } = self;
        text
    }
}

impl<const MOST: usize> Clone for Name<MOST> {
    ghost use Rattle.std.specs.Prelude.{◌≡◌};

    ghost is_clone = { λ name copy. copy ≡ name };

    fn clone(&self) -> Result<Name<MOST>, AllocError> {
        Ok(Name {
            text: self.text.clone()?,
        })
    }
}

fn has_name(most: usize, name: &[u8]) -> bool
    ensures { result ≡ is_name most name.now }
{
    !name.is_empty() && name.len() <= most && has_no_zero(name)
}

fn has_no_zero(name: &[u8]) -> bool
    ensures { result ≡ list_all (λ b. not (b == 0)) name.now }
{
    name.iter().all(|byte| *byte != 0)
}

/// A media type of at most 256 bytes; it may be empty.
#[derive(Debug, Drop)]
pub struct MediaType {
    text: Text,
}

impl Model for MediaType {
    ghost use Rattle.std.specs.Prelude.{◌≤◌, ℕ, List, length};
    ghost use Rattle.object_words.specs.Limits.{media_type_limit};

    ghost Value = { List ℕ };

    ghost view = { λ kind. kind.text };

    ghost invariant = { λ kind. length kind.text ≤ media_type_limit };
}

impl MediaType {
    /// The greatest number of bytes.
    pub const MOST: usize = 256;

    /// The type with this text, where it is not too long; else the text back. Takes no memory.
    pub fn new(text: Text) -> Result<MediaType, Text>
        ensures limits { IsOk result ↔ (length text ≤ media_type_limit) }
        ensures ok { IfOk result (λ kind. kind ≡ text) }
        ensures err { IfErr result (λ back. back ≡ text) }
    {
        if text.len() <= Self::MOST {
            Ok(MediaType { text })
        } else {
            Err(text)
        }
    }

    /// The empty type. Takes no memory.
    pub fn absent(alloc: Global) -> MediaType
        ensures { result ≡ [] }
    {
        MediaType {
            text: Text::new(alloc),
        }
    }

    /// Its text, lent.
    pub fn as_text(&self) -> &Text
        ensures text { result.now ≡ self.now }
        ensures limits { length self.now ≤ media_type_limit }
    {
        &self.text
    }

    /// Its text. Takes no memory.
    pub fn into_text(self) -> Text
        ensures text { result ≡ self }
        ensures limits { length self ≤ media_type_limit }
    {
        let MediaType { text } = self;
        text
    }
}

impl Clone for MediaType {
    ghost use Rattle.std.specs.Prelude.{◌≡◌};

    ghost is_clone = { λ kind copy. copy ≡ kind };

    fn clone(&self) -> Result<MediaType, AllocError> {
        Ok(MediaType {
            text: self.text.clone()?,
        })
    }
}
