//! Doors.
ghost use Rattle.std.specs.Prelude.{◌≡◌, ℕ, ◌<◌, ◌≤◌, ◌^◌, ◌↔◌, ◌++◌, ◌∷◌, [], List, length, Some, IfOk, OnOk, IfErr, OnErr};

use realm_model::{Op, Reply};
use std::alloc::Global;
use turn_cell::Stopped;

/// What an operation was answered, by which event, and the clock at it.
#[derive(Debug, Drop)]
pub struct Answered {
    pub number: u64,
    pub clock: u64,
    pub reply: Reply,
    /// The operation, where it was refused.
    pub back: Option<Op>,
}

/// Where one actor after another makes events in the history of one realm, while others do. A door may
/// tell what it has seen of that history.
pub trait Door {
    ghost use Rattle.turn_cell.specs.declared.machine.DoorFault.TheVariants.{Worn};
    ghost use Rattle.realm_model.specs.declared.event.Event.{Event};
    ghost use Rattle.realm_model.specs.Settings.{SettingsView};
    ghost use Rattle.realm_model.specs.Doors.{DoorView, IsSeen};
    ghost use Rattle.realm_model.specs.Suits.{Suits};
    ghost use Rattle.realm_door.specs.Steps.{MayStep, IsCounted, begun, back_of, event_at, Extends};

    /// Whether doors of this type tell of their events.
    ghost tells: { Type 0 };

    /// What the door tells.
    ghost told: { Self → DoorView };

    /// The history that the last step found.
    ghost found: { Self → List Event };

    /// What the realm is set to.
    ghost settings: { Self → SettingsView };

    /// The name of the realm's borrow; 0 where there is none.
    ghost home: { Self → ℕ };

    /// The number of the last event that was made through the door. Later ones have greater numbers.
    ghost last: { Self → ℕ };

    /// Whether nobody else makes events while there are doors of this type.
    ghost alone: { Type 0 } = { ⊥ };

    /// Lets the next actor of the pass act. Where the present one made no event, it stays.
    fn begin(&mut self)
        requires { tells → IsCounted (told self.old) }
        ensures begins { tells → told self.new ≡ begun (told self.old) }
        ensures last { last self.new ≡ last self.old }
        ensures settings { settings self.new ≡ settings self.old }
        ensures home { home self.new ≡ home self.old };

    /// Does one operation of the present actor at a moment, which makes one event. At `Err` there is none.
    fn step(&mut self, alloc: Global, op: Op, moment: u64) -> Result<Answered, Stopped<Op>>
        requires { tells → MayStep (settings self.old) (told self.old) op }
        ensures made { IfOk result (λ a.
            tells → Extends (settings self.old) (told self.old) op moment a (told self.new)) }
        ensures alone { IfOk result (λ a. tells → alone
            → (told self.new).seen ≡ (told self.old).seen ++ event_at (told self.old) op moment a.reply ∷ []) }

        // Also where the door tells nothing.
        ensures suits { IfOk result (λ a. Suits op a.reply) }
        ensures back { IfOk result (λ a. a.back ≡ back_of op a.reply) }
        ensures number { IfOk result (λ a.
            (last self.old < a.number) × (a.number ≤ 2 ^ 62) × (last self.new ≡ a.number)) }

        ensures stopped { OnErr result (tells → told self.new ≡ told self.old) }
        ensures handed_back { IfErr result (λ s. s.op ≡ Some op) }
        ensures unnumbered { OnErr result (last self.new ≡ last self.old) }
        ensures found { tells → IsSeen (told self.old).seen (found self.new) }
        ensures worn { IfErr result (λ s.
            tells → (s.fault ≡ Worn) ↔ (length (found self.new) ≡ 2 ^ 62)) }

        ensures settings { settings self.new ≡ settings self.old }
        ensures home { home self.new ≡ home self.old };
}
