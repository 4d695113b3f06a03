//! Laws of the layouts: the functions here do nothing.
ghost use Rattle.std.specs.Prelude.{◌≡◌, ◌≢◌, ◌+◌, ◌*◌, ◌^◌, ◌<◌, ◌≤◌, ℕ, List, [], codes, drop, length, take, true};
ghost use Rattle.std.specs.Ordering.{nat_cmp};
ghost use Rattle.std.specs.Cmp.Lexicographic.{slice_cmp};
ghost use Rattle.object_words.specs.Limits.{is_name};
ghost use Rattle.object_words.specs.declared.log.LogWhat.{LogWhat as WhatOf};
ghost use Rattle.object_words.specs.declared.log.LogWhat.TheVariants.{Name as AName, Shard as AShard, Bucket as ABucket};
ghost use Rattle.object_words.specs.Entries.{EntryView};
ghost use Rattle.index_entry.specs.declared.header.ShardHeader.{ShardHeader as HeaderOf};
ghost use Rattle.index_entry.specs.Headers.{IsHeader, header_bytes};
ghost use Rattle.index_entry.specs.Layouts.{IsEntry, entry_bytes};
ghost use Rattle.index_entry.specs.LogRows.{IsWhat, log_key, what_bytes};

/// Bytes are the encoding of one entry at most, and as many as its tags let them be.
pub fn an_entry_has_one_spelling()
    ensures one { (a b : EntryView) → IsEntry a → IsEntry b → entry_bytes a ≡ entry_bytes b → a ≡ b }
    ensures most { (e : EntryView) → IsEntry e → length (entry_bytes e) ≤ 318 + 16 * length e.tags }
{}

/// Bytes are the encoding of one header at most.
pub fn a_header_has_one_spelling()
    ensures { (a b : HeaderOf) → IsHeader a → IsHeader b → header_bytes a ≡ header_bytes b → a ≡ b }
{}

/// The bytes of a row of a log are those of one thing that it may name, and fewer than 1040; its key is that
/// of one position, and no name of an object.
pub fn a_log_row_has_one_spelling()
    ensures one { (a b : WhatOf) → IsWhat a → IsWhat b → what_bytes a ≡ what_bytes b → a ≡ b }
    ensures most { (what : WhatOf) → IsWhat what → length (what_bytes what) < 1040 }
    ensures key { (p q : ℕ) → p < 2 ^ 64 → q < 2 ^ 64 → log_key p ≡ log_key q → p ≡ q }
    ensures no_name { (name : List ℕ) (position : ℕ) → is_name 1024 name ≡ true → name ≢ log_key position }
{}

/// The keys of a log's rows are in the order of their positions.
pub fn log_keys_are_in_order()
    ensures { (p q : ℕ) → p < 2 ^ 64 → q < 2 ^ 64 → slice_cmp nat_cmp (log_key p) (log_key q) ≡ nat_cmp p q }
{}

/// The key of position 258.
const KEY: [u8; 9] = [0, 0, 0, 0, 0, 0, 0, 1, 2];

/// A row that names the object `a/1`.
const OF_NAME: [u8; 6] = [0xec, 1, 0, b'a', b'/', b'1'];

/// A row that names the shard 3 of the instance 258 of the container 7, whose name is `dog`.
const OF_SHARD: [u8; 26] = [
    0xec, 1, 1, 0, 0, 0, 0, 0, 0, 0, 7, 0, 0, 0, 0, 0, 0, 1, 2, 0, 0, 0, 3, b'd', b'o', b'g',
];

/// A row that names the container `dog`.
const OF_BUCKET: [u8; 6] = [0xec, 1, 2, b'd', b'o', b'g'];

/// How the rows of logs are written.
#[tactic(auto, unfolding(crate::specs::Numbers::number_bytes, crate::specs::Numbers::word_bytes))]
pub fn log_rows_are_written_so()
    ensures key { log_key 258 ≡ KEY }
    ensures name { what_bytes (AName (codes "a/1")) ≡ OF_NAME }
    ensures shard { what_bytes (AShard 7 258 3 (codes "dog")) ≡ OF_SHARD }
    ensures bucket { what_bytes (ABucket (codes "dog")) ≡ OF_BUCKET }
{}

/// An entry of version 8 and revision 2 without tags: 5 bytes, written at moment 5 in zone 1.
const WRITTEN: [u8; 65] = [
    0xee, 1, 1, 0, 0, 0, 0, 0, 0, 0, 8, 0, 0, 0, 0, 0, 0, 0, 2, 0, 0, 0, 0, 0, 0, 0, 5, 0, 0, 0, 0,
    0, 0, 0, 5, 1, 0x5d, 0x41, 0x40, 0x2a, 0xbc, 0x4b, 0x2a, 0x76, 0xb9, 0x71, 0x9d, 0x91, 0x10,
    0x17, 0xc5, 0x92, 0, 3, b'a', b'/', b'b', 0, 0, 0, 0, 0, 0, 0, 0,
];

/// How an entry is written, and that its first 64 bytes alone are none.
#[tactic(auto, unfolding(crate::specs::Numbers::number_bytes, crate::specs::Numbers::short_bytes))]
pub fn entries_are_written_so()
    ensures written { entry_bytes (record {
      version = 8;
      revision = 2;
      row = record {
        exists = true;
        size = 5;
        stamp = record { micros = 5; zone = 1 };
        etag = take 16 (drop 36 WRITTEN);
        kind = codes "a/b";
      };
      tags = [];
    }) ≡ WRITTEN }
    ensures cut { (e : EntryView) → IsEntry e → entry_bytes e ≢ take 64 WRITTEN }
{}
