//! The names and the heads that are measured.
use anyhow::Context;
use object_words::{BucketName, ObjectName};
use rgw_types::{Bytes, Text};
use std::alloc::{AllocError, Global};

#[derive(Clone, Copy, Debug)]
pub enum Sample {
    /// Heads of 5 bytes in one container.
    Heads,
    /// Entries with longer names, heads of 100 bytes, and as many containers.
    Entries,
}

impl Sample {
    /// The text of the object's name of this number.
    pub fn text(self, alloc: Global, number: u64) -> Result<Text, AllocError> {
        let text = match self {
            Sample::Heads => format!(in alloc; "object-{number:07}")?,
            Sample::Entries => format!(in alloc; "photos/abcd{number:09}")?,
        };
        Ok(Text::from_string(text))
    }

    pub fn object(self, alloc: Global, number: u64) -> anyhow::Result<ObjectName> {
        let text = self.text(alloc, number)?;
        ObjectName::new(text).ok().context("a name of an object")
    }

    /// The container's name of this number.
    pub fn bucket(self, alloc: Global, number: u64) -> anyhow::Result<BucketName> {
        let name = BucketName::new(self.bucket_text(alloc, number)?);
        name.ok().context("a name of a container")
    }

    /// The text of that name.
    pub fn bucket_text(self, alloc: Global, number: u64) -> Result<Text, AllocError> {
        let text = match self {
            Sample::Heads => format!(in alloc; "box")?,
            Sample::Entries => format!(in alloc; "box-{number:09}")?,
        };
        Ok(Text::from_string(text))
    }

    /// The bytes of a head.
    pub fn content(self, alloc: Global) -> Result<Bytes, AllocError> {
        match self {
            Sample::Heads => Bytes::from_slice(alloc, b"hello"),
            Sample::Entries => Bytes::from_slice(alloc, &[b'x'; 100]),
        }
    }
}
