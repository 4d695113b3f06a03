//! Answers that were worked out by hand: each function here does nothing and is such answers.
ghost use Rattle.std.specs.Prelude.{◌≡◌, ◌^◌, ◌-◌, codes, true, false, ℕ, List, [], Some, None};
ghost use Rattle.md5.specs.Md5.{md5};
ghost use Rattle.rgw_model.specs.declared.slot.Slot.TheVariants as slots;
ghost use Rattle.object_words.specs.declared.head.EtagRule.TheVariants.{Any};
ghost use Rattle.swift_auth.specs.declared.policy.Deed.TheVariants.{ReadThing, ChangeThing};
ghost use Rattle.swift_auth.specs.declared.policy.Rule.TheVariants.{Write, Read};
ghost use Rattle.swift_auth.specs.Users.{standard_user};
ghost use Rattle.task_words.specs.declared.reply.MapReply.TheVariants.{Stored, Shown, Same, Refused};
ghost use Rattle.task_words.specs.declared.reply.Refusal.TheVariants as refusals;
ghost use Rattle.task_words.specs.declared.span.Span.TheVariants.{Between, From, Last};
ghost use Rattle.task_words.specs.Answers.{answered, get_answer, put_answer, is_other_etag};
ghost use Rattle.task_words.specs.Rows.{row_refusal};
ghost use Rattle.task_words.specs.Spans.{is_partial};
ghost use Rattle.task_words.specs.Outcomes.{IsGetOutcome, IsPutOutcome};
ghost use Rattle.task_words.specs.KnownAnswers as known;
ghost use Rattle.task_words.specs.declared.outcome.Outcome.TheVariants.{Done, Busy, MovedOften, LateTag, NoSpace};
ghost use Rattle.realm_model.specs.Histories.{account_of};
ghost use Rattle.realm_model.specs.Owns.{own_events};
ghost use Rattle.realm_model.specs.KnownWords as words;
ghost use Rattle.realm_model.specs.TailsAreRead as tails;
ghost use Rattle.realm_model.specs.NoSpace as no_space;
ghost use Rattle.realm_model.specs.ExpiredTagIsPreparedAgain as expired;
ghost use Rattle.realm_model.specs.StoppedWriterIsRepaired as stopped;
ghost use Rattle.rgw_types.specs.declared.stamp.Stamp.{Stamp as StampOf};

/// Ranges of the letters a to z, and of an object without bytes.
pub fn ranges_are_answered_so()
    ensures middle { get_answer (known.asks true known.always (Some (Between 15 16))) known.slot ≡ known.shows 15 2 (codes "pq") }
    ensures last { get_answer (known.asks true known.always (Some (Last 1))) known.slot ≡ known.shows 25 1 (codes "z") }
    ensures more { get_answer (known.asks true known.always (Some (Last 100))) known.slot ≡ known.shows 0 26 known.letters.bytes }
    ensures rest { get_answer (known.asks true known.always (Some (From 23))) known.slot ≡ known.shows 23 3 (codes "xyz") }
    ensures beyond { get_answer (known.asks true known.always (Some (Between 24 (2 ^ 64 - 1)))) known.slot ≡ known.shows 24 2 (codes "yz") }
    ensures crossed { get_answer (known.asks true known.always (Some (Between 16 15))) known.slot ≡ known.shows 0 26 known.letters.bytes }
    ensures behind { get_answer (known.asks true known.always (Some (From 26))) known.slot ≡ answered (Refused (refusals.NoRange 26)) known.slot }
    ensures none { get_answer (known.asks true known.always (Some (Last 0))) known.slot ≡ answered (Refused (refusals.NoRange 26)) known.slot }
    ensures head { get_answer (known.asks false known.always (Some (Between 15 16))) known.slot ≡ known.shows 0 26 [] }
    ensures empty { (get_answer (known.asks true known.always (Some (Last 5))) (slots.Live known.nothing known.stamp)).reply
        ≡ Shown known.nothing.kind [] known.nothing.etag known.stamp 0 0 0 }
    ensures empty_rest { (get_answer (known.asks true known.always (Some (From 0))) (slots.Live known.nothing known.stamp)).reply
        ≡ Refused (refusals.NoRange 0) }
    ensures partial { is_partial (Some (Between 0 25)) 26 ≡ true }
    ensures whole { is_partial (Some (Last 5)) 0 ≡ false }
{}

/// Conditions on the letters a to z, which were stored in the second 1700000000.
#[tactic(auto, unfolding(hex::specs::Hex::encode_with))]
pub fn conditions_are_answered_so()
    ensures same { get_answer (known.asks true (record known.always { none = known.one_of known.etag_text }) (Some (From 26))) known.slot
        ≡ answered (Same known.etag known.stamp) known.slot }
    ensures not_met_first { get_answer (known.asks true (record known.always { matches = known.one_of (codes "x"); none = Some Any }) None) known.slot
        ≡ answered (Refused refusals.NotMet) known.slot }
    ensures range_last { get_answer (known.asks true (record known.always { matches = Some Any; none = known.one_of (codes "x") }) (Some (From 26))) known.slot
        ≡ answered (Refused (refusals.NoRange 26)) known.slot }
    ensures match_before_date { get_answer (known.asks true (record known.always { matches = known.one_of known.etag_text; unmodified = Some 0 }) None) known.slot
        ≡ known.shows 0 26 known.letters.bytes }
    ensures none_before_date { get_answer (known.asks true (record known.always { none = known.one_of (codes "x"); modified = Some 1800000000 }) None) known.slot
        ≡ known.shows 0 26 known.letters.bytes }
    ensures changed { get_answer (known.asks true (record known.always { unmodified = Some 1699999999 }) None) known.slot
        ≡ answered (Refused refusals.NotMet) known.slot }
    ensures unchanged { get_answer (known.asks true (record known.always { unmodified = Some 1700000000 }) None) known.slot
        ≡ known.shows 0 26 known.letters.bytes }
    ensures had { get_answer (known.asks true (record known.always { modified = Some 1700000000 }) None) known.slot
        ≡ answered (Same known.etag known.stamp) known.slot }
    ensures had_older { get_answer (known.asks true (record known.always { modified = Some 1699999999 }) None) known.slot
        ≡ known.shows 0 26 known.letters.bytes }
    ensures nothing { get_answer (known.asks true (record known.always { matches = Some Any }) None) slots.Nothing
        ≡ answered (Refused refusals.NoObject) slots.Nothing }
    ensures mark { get_answer (known.asks true known.always None) (slots.Mark known.stamp)
        ≡ answered (Refused refusals.NoObject) (slots.Mark known.stamp) }
{}

/// PUTs over nothing, over the letters a to z, and over the mark of a deletion.
pub fn puts_are_answered_so()
    ensures new { (bytes : List ℕ) → put_answer (known.stores known.always) bytes slots.Nothing 2 5
        ≡ record {
          reply = Stored (md5 bytes) (record { micros = 5; zone = 2 });
          shown = [];
          after = slots.Live (record { bytes = bytes; kind = codes "application/octet-stream"; meta = []; etag = md5 bytes }) (record { micros = 5; zone = 2 });
        } }
    ensures over { (bytes : List ℕ) → (put_answer (known.stores known.always) bytes known.slot 2 5).reply
        ≡ Stored (md5 bytes) (record { micros = 1700000000500001; zone = 2 }) }
    ensures over_mark { (bytes : List ℕ) → (put_answer (known.stores known.always) bytes (slots.Mark known.stamp) 2 1800000000000000).reply
        ≡ Stored (md5 bytes) (record { micros = 1800000000000000; zone = 2 }) }
    ensures there { (bytes : List ℕ) → put_answer (known.stores (record known.always { none = Some Any })) bytes known.slot 2 5
        ≡ answered (Refused refusals.NotMet) known.slot }
    ensures absent { (bytes : List ℕ) → put_answer (known.stores (record known.always { matches = Some Any })) bytes slots.Nothing 2 5
        ≡ answered (Refused refusals.NotMet) slots.Nothing }
    ensures dates_do_not_count { (bytes : List ℕ) → (put_answer (known.stores (record known.always { unmodified = Some 0 })) bytes known.slot 2 5).reply
        ≡ Stored (md5 bytes) (record { micros = 1700000000500001; zone = 2 }) }
    ensures any_etag { (bytes : List ℕ) → is_other_etag None bytes ≡ false }
{}

/// The row refuses who is not known before it tells whether the container is there, and tells that before
/// a rule.
#[tactic(auto, unfolding(swift_auth::specs::Lists::names, swift_auth::specs::Lists::has_word))]
pub fn rows_are_refused_so()
    ensures granted { row_refusal (known.asker (Some standard_user)) (Some known.own_row) ChangeThing ≡ None }
    ensures absent { row_refusal (known.asker (Some standard_user)) None ChangeThing ≡ Some refusals.NoContainer }
    ensures of_another { row_refusal (known.asker (Some standard_user)) (Some known.other_row) ReadThing ≡ Some refusals.NoContainer }
    ensures unknown { row_refusal (known.asker None) (Some known.own_row) ReadThing ≡ Some refusals.Unauthorized }
    ensures unknown_absent { row_refusal (known.asker None) None ReadThing ≡ Some refusals.Unauthorized }
    ensures denied_write { row_refusal (known.asker (Some known.bob)) (Some known.own_row) ChangeThing ≡ Some (refusals.Denied Write) }
    ensures denied_read { row_refusal (known.asker (Some known.bob)) (Some known.own_row) ReadThing ≡ Some (refusals.Denied Read) }
    ensures absent_first { row_refusal (known.asker (Some known.bob)) None ChangeThing ≡ Some refusals.NoContainer }
    ensures public { row_refusal (known.asker None) (Some (record known.own_row { readers = codes ".r:*" })) ReadThing ≡ None }
{}

/// What known histories make of their actors: one read a range of the letters a to z, one met another
/// object where it wanted none, and one found no frame for the head of its object.
#[tactic(auto, unfolding(object_words::specs::Names::at, object_words::specs::Names::none, object_words::specs::Names::with_name))]
pub fn known_actors_ended_so()
    ensures shown { IsGetOutcome 1 (known.asker (Some standard_user)) known.gets_letters
        (Done (Shown words.plain [] known.etag (words.stamp 0) 26 19 4))
        (account_of (words.small 16) tails.history (words.actor 3)) }
    ensures not_met { IsPutOutcome 1 (known.asker (Some standard_user)) (known.stores (record known.always { none = Some Any }))
        (known.put_whole known.letters.bytes) (Done (Refused refusals.NotMet))
        (account_of (words.small 16) tails.history (words.actor 4)) (own_events tails.history (words.actor 4)) }
    ensures no_space { IsPutOutcome 1 (known.asker (Some standard_user)) (known.stores known.always)
        (known.put_whole known.letters.bytes) (NoSpace 0 1)
        (account_of (words.small 1) no_space.at_the_head (words.actor 2)) (own_events no_space.at_the_head (words.actor 2)) }
    ensures not_busy { (id : ℕ) → ¬ (IsPutOutcome 1 (known.asker (Some standard_user)) (known.stores known.always)
        (known.put_whole known.letters.bytes) (Busy id)
        (account_of (words.small 1) no_space.at_the_head (words.actor 2)) (own_events no_space.at_the_head (words.actor 2))) }
    ensures late_once { ¬ (IsPutOutcome 1 (known.asker (Some standard_user)) (known.stores known.always)
        (known.put_whole (codes "hello")) LateTag
        (account_of words.usual expired.history (words.actor 2)) (own_events expired.history (words.actor 2))) }
{}

/// A writer whose tag's deadline passed once stored its object, if the digest is that of `hello`; one that
/// changed the head and stopped before it completed did not end so.
#[tactic(auto, unfolding(object_words::specs::Names::at, object_words::specs::Names::none, object_words::specs::Names::with_name))]
pub fn known_writers_ended_so()
    ensures stored { md5 (codes "hello") ≡ (words.hello 4).etag
        → IsPutOutcome 1 (known.asker (Some standard_user)) (known.stores known.always)
        (known.put_whole (codes "hello")) (Done (Stored (words.hello 4).etag (words.stamp 120000000)))
        (account_of words.usual expired.history (words.actor 2)) (own_events expired.history (words.actor 2)) }
    ensures uncompleted { (etag : List ℕ) (stamp : StampOf)
        → ¬ (IsPutOutcome 1 (known.asker (Some standard_user)) (known.stores known.always)
        (known.put_whole (codes "hello")) (Done (Stored etag stamp))
        (account_of words.usual stopped.history (words.actor 2)) (own_events stopped.history (words.actor 2))) }
{}
