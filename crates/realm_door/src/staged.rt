//! What stands behind a task.
ghost use Rattle.std.specs.Prelude.{◌≡◌, ℕ, ◌+◌, ◌≤◌, ◌^◌, ◌↔◌, List, [], length, true, IsSome, IfSome, IfOk};
ghost use Rattle.realm_model.specs.declared.op.Op.{Op as OpOf};

use crate::{Answered, Next, Taken};
use std::alloc::{AllocError, Global};

/// A task as its stages: the operation that comes next, and where an answer brings it. What makes an event and what a
/// turn is, is written once, in `Stepping`.
pub trait Staged {
    ghost use Rattle.realm_model.specs.Allowed.{allowed};
    ghost use Rattle.realm_model.specs.Settings.{SettingsView};
    ghost use Rattle.realm_model.specs.Doors.{DoorView, actor_at};
    ghost use Rattle.realm_model.specs.Histories.{Legal, phase_of};
    ghost use Rattle.realm_model.specs.Suits.{Suits};
    ghost use Rattle.realm_door.specs.Steps.{Extends, back_of};
    ghost use Rattle.realm_door.specs.Waiting.{Waited};
    ghost use Rattle.realm_door.specs.declared.next.Next.TheVariants.{Event, Wants, Done};

    /// What is asked. No value of it is made.
    type Command;

    /// What the task ends with.
    type Outcome;

    /// What is kept while an operation is done.
    type Rest: Drop;

    ghost command: { Self → Self.Command };

    /// Whether the stages stand where the events of the door's actor, in a realm of these settings, bring them.
    ghost fits: { Self → SettingsView → DoorView → Type 0 };

    /// What an outcome says of the events of the door's actor.
    ghost means: { Self.Command → Self.Outcome → SettingsView → DoorView → Type 0 };

    /// Whether the outcome is there.
    ghost is_over: { Self → Type 0 };

    /// Whether an event comes next.
    ghost is_ready: { Self → Type 0 };

    /// Whether bytes are wanted. Left out, none ever are.
    ghost wants: { Self → Type 0 } = { λ _. ⊥ };

    /// The operation that comes next.
    ghost op: { Self → OpOf };

    /// What is left of the stages, and what is kept, while their operation is done.
    ghost is_taken: { Self → Self → Self.Rest → Type 0 };

    /// How an answer brings the stages on, also where nothing is told. Left out, it says nothing.
    ghost steps: { Self → Self → Type 0 } = { λ _ _. Unit {0} };

    /// The bytes that the last answer brought. Left out, there are none.
    ghost piece: { Self → List ℕ } = { λ _. [] };

    /// How many bytes all answers so far have brought.
    ghost given: { Self → ℕ } = { λ _. 0 };

    /// Lets what needs no event decide, and says what comes next.
    fn settle(&mut self) -> Next
        ensures event { result ≡ Event → is_ready self.new }
        ensures wants { result ≡ Wants → wants self.new }
        ensures done { result ≡ Done → is_over self.new }
        ensures over { is_over self.old → (result ≡ Done) × (self.new ≡ self.old) }
        ensures fits { (settings : SettingsView) (d : DoorView) → fits self.old settings d → fits self.new settings d }
        ensures command { command self.new ≡ command self.old }
        ensures given { given self.new ≡ given self.old };

    /// The outcome, once it is there.
    fn end(&self) -> Option<&Self::Outcome>
        ensures there { IsSome result ↔ is_over self.now }
        ensures right { IfSome result (λ outcome. (settings : SettingsView) (d : DoorView)
            → fits self.now settings d → means (command self.now) outcome.now settings d) };

    /// The bytes that the last answer brought.
    fn piece(&self) -> &[u8]
        ensures { result.now ≡ piece self.now };

    /// Takes the operation out. It fails only for want of memory.
    fn split(&mut self, alloc: Global) -> Result<Taken<Self::Rest>, AllocError>
        requires { is_ready self.old }
        ensures op { IfOk result (λ s. s.op ≡ op self.old) }
        ensures rest { IfOk result (λ s. is_taken self.old self.new s.rest) }
        ensures may { IfOk result (λ s. (settings : SettingsView) (d : DoorView)
            → fits self.old settings d → allowed settings (phase_of settings d.seen (actor_at d)) (op self.old) ≡ true) }
        ensures command { command self.new ≡ command self.old };

    /// Goes on by the answer to that operation.
    fn take(&mut self, alloc: Global, rest: Self::Rest, answered: Answered)
        requires suits { (t : Self) × is_taken t self.old rest × Suits (op t) answered.reply }
        ensures next { (t : Self) → is_taken t self.old rest
            → Suits (op t) answered.reply → answered.back ≡ back_of (op t) answered.reply → answered.number ≤ 2 ^ 62
            → (settings : SettingsView) (d e : DoorView) (moment : ℕ)
            → fits t settings d → Extends settings d (op t) moment answered e → fits self.new settings e }
        ensures steps { (t : Self) → is_taken t self.old rest
            → Suits (op t) answered.reply → answered.back ≡ back_of (op t) answered.reply → steps t self.new }
        ensures given { (t : Self) → is_taken t self.old rest → Suits (op t) answered.reply
            → given self.new ≡ given t + length (piece self.new) }
        ensures command { command self.new ≡ command self.old };

    /// A law: while others make events, the stages stand where they stood. It does nothing.
    fn waits()
        ensures { (t : Self) (settings : SettingsView) (d e : DoorView)
            → Waited settings d e → Legal settings e.seen → fits t settings d → fits t settings e };
}
