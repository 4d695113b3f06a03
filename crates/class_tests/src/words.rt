//! Names, types and keys of the tests.
use object_pool::Key;
use object_words::{BucketName, MediaType};
use rgw_types::Text;
use std::alloc::Global;
use std::test::Fail;

pub fn bucket_name(alloc: Global, text: &str) -> Result<BucketName, Fail> {
    let text = Text::from_str(alloc, text)?;
    Ok(BucketName::new(text).ok().ok_or("no name")?)
}

pub fn media_type(alloc: Global, text: &str) -> Result<MediaType, Fail> {
    let text = Text::from_str(alloc, text)?;
    Ok(MediaType::new(text).ok().ok_or("no type")?)
}

/// The one shard of a container.
pub fn first_shard() -> Key {
    Key::Shard {
        container: 1,
        instance: 1,
        shard: 0,
    }
}
