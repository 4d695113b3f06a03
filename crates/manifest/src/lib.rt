//! The bytes of a manifest, and a range of an object's bytes as pieces of its head and its tails.
#![tactic(auto)]

mod codec;
mod known;
mod laws;
mod parts;
mod ranges;

pub use codec::ManifestBytes;
pub use known::{manifests_are_written_so, ranges_are_cut_so};
pub use laws::{a_manifest_has_one_spelling, whole_objects_are_all_their_parts};
pub use parts::{Part, Parts};
pub use rgw_types::Manifest;
pub use std::alloc::AllocError as OutOfMemory;
