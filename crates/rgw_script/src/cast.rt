//! The actors of a script, by name.
ghost use Rattle.std.specs.Prelude.{◌≡◌, ◌≢◌, ℕ, List, None, Some, OnOk, IfSome, IfNone, false, true, if◌then◌else◌};
ghost use Rattle.std.specs.Str.{bytes_eq};
ghost use Rattle.rgw_script.specs.Casts.{under, playing};

use crate::active::Active;
use script_words::ActorName;
use std::alloc::{AllocError, Global};
use std::collections::BTreeMap;

/// The actors of a script, by name. A name whose actor plays no more stays used.
#[derive(Drop)]
pub(crate) struct Cast {
    names: BTreeMap<ActorName, Option<Active>>,
}

impl Cast {
    /// No name is used.
    pub(crate) fn new(alloc: Global) -> Cast
        ensures { (name : List ℕ) → under result name ≡ None }
    {
        Cast {
            names: BTreeMap::new(alloc),
        }
    }

    /// Whether the name was used.
    pub(crate) fn has(&self, name: &ActorName) -> bool
        ensures unused { result ≡ false → under self.now name.now ≡ None }
        ensures used { result ≡ true → under self.now name.now ≢ None }
    {
        self.names.contains_key(name)
    }

    /// Takes out the actor of this name, where it plays. The name stays used.
    pub(crate) fn take(&mut self, name: &ActorName) -> Option<Active>
        ensures who { result ≡ playing (under self.old name.now) }
        ensures gone { IfSome result (λ _. (q : List ℕ)
            → under self.new q ≡ (if bytes_eq name.now q then Some None else under self.old q)) }
        ensures kept { IfNone result ((q : List ℕ) → under self.new q ≡ under self.old q) }
    {
        match self.names.get_mut(name) {
            Some(part) => part.take(),
            None => None,
        }
    }

    /// Puts an actor under a name, in the place of whoever had it.
    pub(crate) fn put(&mut self, name: ActorName, active: Active) -> Result<(), AllocError>
        ensures { OnOk result ((q : List ℕ)
            → under self.new q ≡ (if bytes_eq name q then Some (Some active) else under self.old q)) }
    {
        match self.names.insert(name, Some(active)) {
            Ok(_) => Ok(()),
            Err(_) => Err(AllocError),
        }
    }
}
