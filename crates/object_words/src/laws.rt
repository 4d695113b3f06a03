//! Laws of the definitions: the functions here do nothing.
ghost use Rattle.std.specs.Prelude.{◌≡◌, ◌+◌, ℕ, true, false, codes, cond, List, None, Some};
ghost use Rattle.std.specs.Ordering.{eq_by_cmp};
ghost use Rattle.rgw_types.specs.declared.pool_key.Key.{Key as KeyOf};
ghost use Rattle.object_words.specs.Keys.{is_key};
ghost use Rattle.object_words.specs.Names.{name_cmp, Named, at, with_name, without_name};
ghost use Rattle.object_words.specs.Hashes.{shard_of};
ghost use Rattle.object_words.specs.Entries.{EntryView, no_entry, is_kept};
ghost use Rattle.object_words.specs.Shards.{Shard as ShardOf, entry_at, with_entry, sum_over};

/// A finite map by name is known by its answers.
pub fn maps_are_known_by_their_answers()
    ensures with_name { (m : Named ℕ) (name q : List ℕ) (x : ℕ)
        → at (with_name m name x) q ≡ cond (eq_by_cmp name_cmp q name) (Some x) (at m q) }
    ensures without_name { (m : Named ℕ) (name q : List ℕ)
        → at (without_name m name) q ≡ cond (eq_by_cmp name_cmp q name) None (at m q) }
    ensures same { (m n : Named ℕ) → ((q : List ℕ) → at m q ≡ at n q) → m ≡ n }
{}

/// The test of keys tells whether they are the same.
pub fn keys_are_told_apart()
    ensures same { (k q : KeyOf) → is_key k q ≡ true → k ≡ q }
    ensures itself { (k : KeyOf) → is_key k k ≡ true }
{}

/// A sum over a shard's entries moves by the one entry that changes.
pub fn sums_move_by_one_entry()
    ensures { (f : EntryView → ℕ) → f no_entry ≡ 0
        → (s : ShardOf) (name : List ℕ) (e : EntryView) → (is_kept e ≡ false → f e ≡ 0)
        → sum_over f (with_entry s name e) + f (entry_at s name) ≡ sum_over f s + f e }
{}

/// Names fall into shards as another program computes them.
pub fn shards_of_names_are_these()
    ensures most_shards { shard_of (codes "dog") 1999 ≡ 687 }
    ensures four_shards { shard_of (codes "a/1") 4 ≡ 3 }
    ensures one_shard { shard_of (codes "dog") 1 ≡ 0 }
{}
