//! What calls on one object of a pool leave: the frame that each such call keeps, and when an object is a
//! shard or has a log, with the small calls that several classes make. The classes and the realm cite these
//! words. The functions without arguments are laws and do nothing.
#![tactic(auto)]

mod header;
mod paging;

ghost use Rattle.std.specs.Prelude.{◌≡◌, ◌≢◌, ◌<◌, ◌≤◌, ◌^◌, ◌+◌, ◌∷◌, ℕ, List, None, Some, IfSome, true, IsTrue};
ghost use Rattle.std.specs.Ordering.{is_lt};
ghost use Rattle.omap_pages.specs.Contents.{Contents as ContentsOf};
ghost use Rattle.omap_pages.specs.Rows.{key_cmp, value_at};
ghost use Rattle.object_pool.specs.declared.place.Place.{Place as PlaceOf};
ghost use Rattle.object_pool.specs.Objects.{Object as ObjectOf};
ghost use Rattle.object_pool.specs.Places.{Becomes, Changes, ChangesRows, Stays, pool_of};
ghost use Rattle.object_words.specs.declared.log.LogWhat.{LogWhat as WhatOf};
ghost use Rattle.object_words.specs.Entries.{EntryView};
ghost use Rattle.object_words.specs.Logs.{Log as LogOf, logged};
ghost use Rattle.object_words.specs.Names.{at};
ghost use Rattle.object_words.specs.Shards.{Shard as ShardOf};
ghost use Rattle.index_entry.specs.LogRows.{IsWhat, log_key, what_bytes};
ghost use Rattle.class_words.specs.Works.{Works, WorksOnRows, WorksWith};
ghost use Rattle.class_words.specs.LogRows.{IsLog, logged_at};
ghost use Rattle.class_words.specs.Shards.{HasEntry, HasRows, IsObjectName};

pub use header::{check_serves, header_at, put_header};
pub use paging::{later_of, look_up, name_in};

/// What one call on a place leaves is what a call leaves, and so is what one leaves after another, or
/// one that does nothing.
pub fn calls_follow_one_another()
    ensures change { (old new : PlaceOf) (is : ObjectOf) → Changes old new is → Works old new }
    ensures rows { (old new : PlaceOf) → ChangesRows old new → WorksOnRows old new }
    ensures becomes { (old new : PlaceOf) (is : ObjectOf) (free : ℕ) → Becomes old new is free → WorksWith old new free }
    ensures with { (old new : PlaceOf) → Works old new → WorksWith old new (pool_of old).free }
    ensures stays { (old new : PlaceOf) → Stays old new → Works old new }
    ensures then { (a b c : PlaceOf) → Works a b → Works b c → Works a c }
    ensures rows_then { (a b c : PlaceOf) → WorksOnRows a b → WorksOnRows b c → WorksOnRows a c }
    ensures with_then { (a b c : PlaceOf) (free : ℕ) → WorksWith a b free → Works b c → WorksWith a c free }
    ensures none { (place : PlaceOf) → Works place place }
{}

/// The keys of a log lie below all names, and no two of them are the same.
pub fn logs_and_names_stand_apart()
    ensures apart { (log : LogOf) (name : List ℕ) → IsObjectName name → logged_at log name ≡ None }
    ensures below { (position : ℕ) (name : List ℕ) → IsObjectName name → IsTrue (is_lt (key_cmp (log_key position) name)) }
    ensures once { (p q : ℕ) → p < 2 ^ 64 → q < 2 ^ 64 → log_key p ≡ log_key q → p ≡ q }
{}

/// A log takes one row more, under a key that it doesn't have yet.
pub fn a_log_grows_at_its_end()
    ensures absent { (log : LogOf) → IsLog log → log.last + 1 < 2 ^ 64 → logged_at log (log_key (log.last + 1)) ≡ None }
    ensures there { (log : LogOf) (what : WhatOf) → IsLog log → log.last + 1 < 2 ^ 64 → logged_at (logged log what) (log_key (log.last + 1)) ≡ Some (what_bytes what) }
    ensures others { (log : LogOf) (what : WhatOf) (key : List ℕ) → IsLog log → log.last + 1 < 2 ^ 64 → key ≢ log_key (log.last + 1) → logged_at (logged log what) key ≡ logged_at log key }
    ensures kept { (log : LogOf) (what : WhatOf) → IsLog log → IsWhat what → log.last + 1 < 2 ^ 64 → IsLog (logged log what) }
{}

/// A shard has under a name what its rows say of it.
pub fn a_shard_has_its_entries()
    ensures { (c : ContentsOf) (s : ShardOf) (name : List ℕ) → HasRows c s → IsObjectName name → HasEntry c name (at s.entries name) }
{}
