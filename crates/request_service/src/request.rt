//! What requests without a wanted body differ in.
ghost use Rattle.std.specs.Prelude.{◌≡◌, ◌++◌, ℕ, Bool, false, List, [], Option, None, Some, IsSome, IfSome, ◌↔◌, OnOk, option_map};

use crate::ending::Ending;
use http_model::ReplyForm;
use realm_door::Staged;
use std::alloc::{AllocError, Global};

/// The stages of a request that wants no body: what it asks, how it may end, and the text of its reply.
pub trait Request: Staged {
    ghost use Rattle.http_chunks.specs.declared.body.BodyEnd.{BodyEnd};
    ghost use Rattle.realm_model.specs.Doors.{DoorView, actor_at};
    ghost use Rattle.realm_model.specs.Owns.{own_events};
    ghost use Rattle.realm_model.specs.Settings.{SettingsView};
    ghost use Rattle.realm_door.specs.Turns.{MakesEvent};
    ghost use Rattle.task_words.specs.declared.reply.MapReply.{MapReply as MapReplyOf};
    ghost use Rattle.call_words.specs.Bodies.{read_whole, broken_off, IsWrong};
    ghost use Rattle.call_words.specs.Ends.{TaskEnd};
    ghost use Rattle.call_words.specs.Texts.{told_by, HasReply};
    ghost use Rattle.task_words.specs.Outcomes.{Body};
    ghost use Rattle.call_service.specs.Serving.{BearsOut, BearsOutSoFar, IsNew};
    ghost use Rattle.request_service.specs.Early.{early_end};
    ghost use Rattle.request_service.specs.Requests.{Question, site_of, IsUnfed, IsThere, ending_of, text_at, shown_text, HasBytes, MayEnd, GoesOn, EndsSo, ShowsFront};

    /// In which zone, and what is asked.
    ghost question: { Self.Command → Question };

    /// Whether the stages stand before their first event.
    ghost begins: { Self → Type 0 };

    /// Whether they stand where answers bring them, also where nothing is told.
    ghost is_sound: { Self → Type 0 };

    /// How an outcome ends a task.
    ghost end_by: { Self.Outcome → TaskEnd };

    /// Whether the stages may have ended with this outcome.
    ghost ends_with: { Self → Self.Outcome → Type 0 };

    /// Whether there was no memory to go on, so that not even a body that broke off can be replied.
    ghost is_broken: { Self → Bool };

    /// The reply whose bytes come, once it is known. Left out, none is.
    ghost shown: { Self → Option MapReplyOf } = { λ _. None };

    /// The bytes that the own events of the door's actor brought. Left out, there are none.
    ghost brought: { Self.Command → DoorView → List ℕ } = { λ _ _. [] };

    /// All bytes of the reply.
    ghost whole: { Self.Command → SettingsView → DoorView → List ℕ } = { λ _ _ _. [] };

    /// The outcome, once it is there.
    fn ended(&self) -> Option<&Self::Outcome>
        ensures there { IsSome result ↔ Self.is_over self.now }
        ensures with { IfSome result (λ outcome. ends_with self.now outcome.now) };

    /// What is written where the task ended so.
    fn ending(outcome: &Self::Outcome) -> Ending
        ensures { result ≡ ending_of (end_by outcome.now) };

    /// Whether there was no memory to go on, so that not even a body that broke off can be replied: no event comes,
    /// and no outcome.
    fn is_broken(&self) -> bool
        ensures { result ≡ is_broken self.now };

    /// Adds the text of the reply whose bytes come, up to these bytes; nothing while none is known.
    fn push_head(&self, out: &mut Vec<u8>, form: ReplyForm) -> Result<(), AllocError>
        requires sound { is_sound self.now }
        ensures { OnOk result (out.new.items ≡ out.old.items ++ shown_text form (question (Self.command self.now)).asked (shown self.now)) };

    /// Adds the text of the reply with which the task ended, but for bytes of an object.
    fn push_reply(
        &self,
        alloc: Global,
        out: &mut Vec<u8>,
        outcome: &Self::Outcome,
        form: ReplyForm,
    ) -> Result<(), AllocError>
        requires sound { is_sound self.now }
        requires replied { HasReply (told_by (question (Self.command self.now)).asked read_whole (end_by outcome.now)) }
        ensures { OnOk result (out.new.items ≡ out.old.items ++ text_at form (question (Self.command self.now)).asked (end_by outcome.now)) };

    // ---- laws

    ghost unfed: { (c : Self.Command) → IsUnfed (question c).asked };

    ghost onward: { (t : Self) → (Self.is_over t → ⊥) → Self.is_ready t };

    ghost begun: { (t : Self) → begins t → Self.is_ready t × is_sound t };

    ghost goes_on: { (t u : Self) → Self.steps t u → is_sound t → is_sound u × GoesOn (shown t) (shown u) (Self.piece u) };

    ghost first: { (t u : Self) → Self.steps t u → begins t → Self.piece u ≡ [] };

    ghost shows: { (t : Self) (reply : MapReplyOf) → is_sound t → shown t ≡ Some reply → HasBytes (question (Self.command t)).asked reply };

    ghost may_end: { (t : Self) (outcome : Self.Outcome) → is_sound t → ends_with t outcome
        → MayEnd (question (Self.command t)).asked (shown t) (end_by outcome) };

    ghost unbrought: { (c : Self.Command) (d : DoorView) → own_events d.seen (actor_at d) ≡ [] → brought c d ≡ [] };

    ghost brings: { (t u : Self) (settings : SettingsView) (d e : DoorView) (moment : ℕ)
        → Self.command u ≡ Self.command t → Self.fits u settings e → MakesEvent settings moment d e
        → brought (Self.command t) e ≡ brought (Self.command t) d ++ Self.piece u };

    ghost front: { (t : Self) (settings : SettingsView) (d : DoorView) (reply : MapReplyOf)
        → Self.fits t settings d → shown t ≡ Some reply
        → ShowsFront (site_of settings (question (Self.command t))) (question (Self.command t)).asked reply (brought (Self.command t) d) (whole (Self.command t) settings d) d };

    ghost right: { (t : Self) (settings : SettingsView) (d : DoorView) (outcome : Self.Outcome)
        → is_sound t → Self.fits t settings d → ends_with t outcome
        → EndsSo (site_of settings (question (Self.command t))) (question (Self.command t)).asked (brought (Self.command t) d) d (end_by outcome) };

    ghost so_far: { (t : Self) (settings : SettingsView) (d : DoorView) (body : Body) → Self.fits t settings d
        → BearsOutSoFar (site_of settings (question (Self.command t))) (question (Self.command t)).asked body d };

    ghost early: { (t u : Self) (outcome : Option Self.Outcome) (settings : SettingsView) (d e : DoorView) (moment : ℕ) (why : BodyEnd) (came : List ℕ)
        → begins t → Self.steps t u → is_broken u ≡ false → Self.fits u settings e → IsThere (Self.is_over u) (ends_with u) outcome
        → IsNew settings d → MakesEvent settings moment d e → IsWrong why
        → BearsOut (site_of settings (question (Self.command u))) (question (Self.command u)).asked (broken_off why) came (early_end (option_map end_by outcome)) [] e };
}
