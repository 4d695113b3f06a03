//! Known histories, computed: each is legal, each answer is the step's, and they leave what they should.
#![tactic(auto, unfolding(object_words::specs::Names::at, object_words::specs::Names::none, object_words::specs::Names::with_name, object_words::specs::Names::where_name, object_words::specs::Names::without_name, object_words::specs::Names::entries))]

ghost use Rattle.std.specs.Prelude.{◌≡◌, ◌∷◌, [], codes, Some, None};
ghost use Rattle.rgw_model.specs.declared.slot.Slot.TheVariants as slots;
ghost use Rattle.object_words.specs.declared.head.SeenSlot.TheVariants.{Live};
ghost use Rattle.object_words.specs.declared.shard.Fate.TheVariants.{Closed};
ghost use Rattle.object_words.specs.declared.shard.Hold.TheVariants.{Closing};
ghost use Rattle.object_words.specs.Keys.{head_key, shard_key};
ghost use Rattle.object_words.specs.Shards.{new_shard};
ghost use Rattle.object_words.specs.Entries.{no_entry};
ghost use Rattle.object_words.specs.Names.{at};
ghost use Rattle.object_words.specs.Heads.{no_head};
ghost use Rattle.realm_model.specs.Containers.{entry_in};
ghost use Rattle.realm_model.specs.Maps.{heads};
ghost use Rattle.realm_model.specs.Accounts.{slot_now};
ghost use Rattle.realm_model.specs.Facts.{in_head, making};
ghost use Rattle.realm_model.specs.Histories.{IsPlayed, world_of, state_of, account_of};
ghost use Rattle.realm_model.specs.KnownWords as words;
ghost use Rattle.realm_model.specs.StoppedWriterIsRepaired as stopped;
ghost use Rattle.realm_model.specs.ExpiredTagIsPreparedAgain as expired;
ghost use Rattle.realm_model.specs.OlderCompletionLoses as older;
ghost use Rattle.realm_model.specs.LateSuggestionIsRefused as late;
ghost use Rattle.realm_model.specs.NoSpace as no_space;
ghost use Rattle.realm_model.specs.TailsAreRead as tails;
ghost use Rattle.realm_model.specs.RowIsChanged as row;
ghost use Rattle.realm_model.specs.ContainerLifecycle as lifecycle;
ghost use Rattle.realm_model.specs.CancelledClosing as cancelled;
ghost use Rattle.realm_model.specs.UnsettledContainer as unsettled;

/// What a writer left that stopped before its end is put right by a check.
pub fn stopped_writer_is_repaired()
    ensures played { IsPlayed words.usual stopped.history }
    ensures entry { entry_in ((state_of words.usual stopped.history).shards 1 words.shard) words.k
        ≡ record { version = 7; revision = 2; row = words.hello_row 1000000; tags = [] } }
    ensures head { (state_of words.usual stopped.history).heads 1 (head_key 1 words.k)
        ≡ record { version = 7; slot = Live (words.hello 4) (words.stamp 1000000) } }
    ensures free { (state_of words.usual stopped.history).free 1 ≡ 16383 }
    ensures last { (world_of words.usual stopped.history).index.last 1 1 words.k ≡ Some 5 }
    ensures unfinished { (account_of words.usual stopped.history (words.actor 2)).completes ≡ 0 }
{}

/// A tag whose deadline has passed is cancelled and prepared again.
pub fn expired_tag_is_prepared_again()
    ensures played { IsPlayed words.usual expired.history }
    ensures entry { entry_in ((state_of words.usual expired.history).shards 1 words.shard) words.k
        ≡ record { version = 12; revision = 2; row = words.hello_row 120000000; tags = [] } }
    ensures head { (state_of words.usual expired.history).heads 1 (head_key 1 words.k)
        ≡ record { version = 12; slot = Live (words.hello 4) (words.stamp 120000000) } }
    ensures expired { (account_of words.usual expired.history (words.actor 2)).expired.count ≡ 1 }
    ensures changes { (account_of words.usual expired.history (words.actor 2)).changes ≡ 1 }
    ensures completes { (account_of words.usual expired.history (words.actor 2)).completes ≡ 1 }
{}

/// A writer that completes last loses, where the other's change was later.
pub fn older_completion_loses()
    ensures played { IsPlayed words.usual older.history }
    ensures entry { entry_in ((state_of words.usual older.history).shards 1 words.shard) words.k
        ≡ record { version = 11; revision = 4; row = words.empty_row 1; tags = [] } }
    ensures head { (state_of words.usual older.history).heads 1 (head_key 1 words.k)
        ≡ record { version = 11; slot = Live (words.empty 8) (words.stamp 1) } }
    ensures free { (state_of words.usual older.history).free 1 ≡ 16384 }
{}

/// A container's metadata changes, and pages of names show it.
pub fn row_is_changed()
    ensures played { IsPlayed words.usual row.history }
    ensures row { at ((state_of words.usual row.history).root 1).buckets words.box ≡ Some (row.changed 9 6) }
    ensures logged { ((state_of words.usual row.history).root 1).log.last ≡ 2 }
    ensures instance { (world_of words.usual row.history).rows.instances 1 1 1 ≡ Some (record { shards = 1; over = 0 }) }
{}

/// A container is made and removed; one that has an object is not.
pub fn container_lifecycle()
    ensures played { IsPlayed words.usual lifecycle.history }
    ensures gone { at ((state_of words.usual lifecycle.history).root 1).buckets (codes "e") ≡ None }
    ensures kept { at ((state_of words.usual lifecycle.history).root 1).buckets words.box
        ≡ Some (record (words.bucket 1 14 2) { shared = 4; number = 1 }) }
    ensures instance { (world_of words.usual lifecycle.history).rows.instances 1 1 1 ≡ Some (record { shards = 2; over = 1 }) }
    ensures shut { (state_of words.usual lifecycle.history).shards 1 (shard_key 16 16 1)
        ≡ Some (record new_shard { hold = Closing 1; fate = Closed }) }
    ensures logged { ((state_of words.usual lifecycle.history).root 1).log.last ≡ 3 }
{}

/// A closing that another actor cancelled is begun anew, and finds an object.
pub fn cancelled_closing()
    ensures played { IsPlayed words.usual cancelled.history }
    ensures row { at ((state_of words.usual cancelled.history).root 1).buckets (codes "e")
        ≡ Some (record (words.bucket 5 27 2) { shared = 8; number = 2 }) }
    ensures released { (state_of words.usual cancelled.history).shards 1 (shard_key 5 5 0)
        ≡ Some (record new_shard { fence = 2 }) }
    ensures instance { (world_of words.usual cancelled.history).rows.instances 1 5 5 ≡ Some (record { shards = 2; over = 2 }) }
{}

/// A container that is not empty is not removed: the closing is cleared, no shard is held, and a writer goes on.
pub fn full_container_is_not_removed()
    ensures played { IsPlayed words.usual unsettled.history }
    ensures row { at ((state_of words.usual unsettled.history).root 1).buckets words.box
        ≡ Some (record (words.bucket 1 12 1) { shared = 3; number = 1 }) }
    ensures entry { entry_in ((state_of words.usual unsettled.history).shards 1 words.shard) words.k
        ≡ record { version = 7; revision = 3; row = words.hello_row 0; tags = words.tag 14 120000000 ∷ [] } }
{}

/// A suggestion is refused where the entry changed since it was seen.
pub fn late_suggestion_is_refused()
    ensures played { IsPlayed words.usual late.history }
    ensures entry { entry_in ((state_of words.usual late.history).shards 1 words.shard) words.k
        ≡ record { version = 14; revision = 4; row = words.empty_row 120000000; tags = [] } }
{}

/// A change of a head is refused where its bytes find no frame, with the numbers.
pub fn no_space()
    ensures head_played { IsPlayed (words.small 1) no_space.at_the_head }
    ensures head_entry { entry_in ((state_of (words.small 1) no_space.at_the_head).shards 1 words.shard) words.k ≡ no_entry }
    ensures head_head { (state_of (words.small 1) no_space.at_the_head).heads 1 (head_key 1 words.k) ≡ no_head }
    ensures head_wanted { (account_of (words.small 1) no_space.at_the_head (words.actor 2)).wanted
        ≡ Some (record { number = 8; free = 0; needed = 1 }) }

    ensures next_played { IsPlayed (words.small 2) no_space.at_the_next }
    ensures next_entry { entry_in ((state_of (words.small 2) no_space.at_the_next).shards 1 words.shard) words.k
        ≡ record { version = 8; revision = 2; row = words.alphabet_row 0; tags = [] } }
    ensures next_free { (state_of (words.small 2) no_space.at_the_next).free 1 ≡ 0 }
{}

/// A range of an object is read from its tail, and a condition on a change is tested.
pub fn tails_are_read()
    ensures played { IsPlayed (words.small 16) tails.history }
    ensures entry { entry_in ((state_of (words.small 16) tails.history).shards 1 words.shard) words.k
        ≡ record { version = 8; revision = 4; row = words.alphabet_row 0; tags = [] } }
    ensures free { (state_of (words.small 16) tails.history).free 1 ≡ 13 }
    ensures slot { slot_now (heads tails.history) (world_of (words.small 16) tails.history).stripes.made 1 1 words.k
        ≡ slots.Live (record {
          bytes = codes "abcdefghijklmnopqrstuvwxyz";
          kind = words.plain;
          meta = [];
          etag = words.hex (codes "c3fcd3d76192e4007dfb496cca67e13b");
        }) (words.stamp 0) }
    ensures named { (world_of (words.small 16) tails.history).stripes.ledger 1 4 4
        ≡ record { count = 1; place = in_head 1 words.k } }
    ensures unnamed { (world_of (words.small 16) tails.history).stripes.ledger 1 14 14
        ≡ record { count = 1; place = making (words.actor 4) } }
{}
