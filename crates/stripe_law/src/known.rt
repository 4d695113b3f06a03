//! A known history in which the premises of the laws are met: computed, with every answer.
#![tactic(auto, unfolding(object_words::specs::Names::at, object_words::specs::Names::none, object_words::specs::Names::with_name, object_words::specs::Names::where_name, object_words::specs::Names::without_name, object_words::specs::Names::entries))]

ghost use Rattle.std.specs.Prelude.{◌≡◌, ◌∷◌, [], true, codes};
ghost use Rattle.std.specs.List.{AllZip};
ghost use Rattle.rgw_model.specs.declared.slot.Slot.TheVariants as slots;
ghost use Rattle.manifest.specs.Ranges.{parts_of};
ghost use Rattle.realm_model.specs.Accounts.{slot_now};
ghost use Rattle.realm_model.specs.Facts.{replaced};
ghost use Rattle.realm_model.specs.Maps.{heads};
ghost use Rattle.realm_model.specs.Histories.{with_answers, all_allowed, world_of};
ghost use Rattle.realm_model.specs.KnownWords as words;
ghost use Rattle.stripe_law.specs.Reading.{IsPiece};
ghost use Rattle.stripe_law.specs.ReplacedMeanwhile as meanwhile;

/// The object a to z is read whole, though another actor replaces it by `hello` between the read of the
/// head and that of the tail.
pub fn an_object_is_read_while_it_is_replaced()
    ensures answers { with_answers (words.small 16) meanwhile.history ≡ meanwhile.history }
    ensures allowed { all_allowed (words.small 16) meanwhile.history ≡ true }
    ensures pieces { AllZip (IsPiece meanwhile.later 1 (words.alphabet 4)) (parts_of (words.manifest 4 16 26) 0 26)
        (codes "abcdefghijklmnop" ∷ codes "qrstuvwxyz" ∷ []) }
    ensures shown { slot_now (heads meanwhile.before) (world_of (words.small 16) meanwhile.before).stripes.made 1 1 words.k
        ≡ slots.Live (record { bytes = codes "abcdefghijklmnopqrstuvwxyz"; kind = words.plain; meta = []; etag = (words.alphabet 4).etag })
        (words.stamp 0) }
    ensures replaced { (world_of (words.small 16) meanwhile.history).stripes.ledger 1 4 4
        ≡ record { count = 1; place = replaced (words.actor 4) } }
{}
