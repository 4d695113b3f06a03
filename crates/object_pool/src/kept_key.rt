// The key of an object that is kept.
ghost use Rattle.std.specs.Prelude.{◌≡◌, ◌↔◌, IsTrue, IfOk};

use omap_pages::OutOfMemory;
use rgw_types::Key;
use smallvec::SmallVec;
use std::alloc::Global;
use std::marker::Model;

// The name of a head stands in place where it has up to so many bytes.
const NEAR_NAME: usize = 40;

#[derive(Drop)]
enum Label {
    Head {
        container: u64,
        name: SmallVec<u8, NEAR_NAME>,
    },
    Other(Key),
}

// A copy of a key. To compare it goes to no other memory where a head's name is short.
#[derive(Drop)]
pub(crate) struct KeptKey {
    label: Label,
}

impl Model for KeptKey {
    ghost use Rattle.rgw_types.specs.declared.pool_key.Key.{Key};
    ghost use Rattle.object_pool.specs.Labels.{key_in};

    ghost Value = { Key };

    ghost view = { λ k. key_in k.label };
}

impl KeptKey {
    // A copy of this key.
    pub(crate) fn copy_of(alloc: Global, key: &Key) -> Result<KeptKey, OutOfMemory>
        ensures { IfOk result (λ kept. kept ≡ key.now) }
    {
        let label = match key {
            Key::Head { container, name } => Label::Head {
                container: *container,
                name: SmallVec::from_slice(alloc, name.as_bytes())?,
            },
            other => Label::Other(other.clone()?),
        };
        Ok(KeptKey { label })
    }

    // Whether it is a copy of this key.
    pub(crate) fn is(&self, key: &Key) -> bool
        ensures { IsTrue result ↔ (self.now ≡ key.now) }
    {
        match (&self.label, key) {
            (
                Label::Head { container, name },
                Key::Head {
                    container: other,
                    name: text,
                },
            ) => container == other && name.as_slice() == text.as_bytes(),
            (Label::Other(own), key) => own == key,
            _ => false,
        }
    }
}
