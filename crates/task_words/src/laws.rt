//! A law of the definitions: the function does nothing.
ghost use Rattle.std.specs.Prelude.{ℕ, List, ◌++◌};
ghost use Rattle.realm_model.specs.Settings.{SettingsView};
ghost use Rattle.realm_model.specs.Phases.{ActorId};
ghost use Rattle.realm_model.specs.Histories.{account_of};
ghost use Rattle.realm_model.specs.Owns.{own_events, NoneBy};
ghost use Rattle.realm_model.specs.declared.event.Event.{Event as EventOf};
ghost use Rattle.task_words.specs.declared.asker.Asker.{Asker as AskerOf};
ghost use Rattle.task_words.specs.declared.command.GetCommand.{GetCommand as GetCommandOf};
ghost use Rattle.task_words.specs.declared.command.PutCommand.{PutCommand as PutCommandOf};
ghost use Rattle.task_words.specs.declared.outcome.Outcome.{Outcome as OutcomeOf};
ghost use Rattle.task_words.specs.Outcomes.{Body, IsGetOutcome, IsPutOutcome};

/// What an end of a task means stays true when other actors make events.
pub fn outcomes_stay()
    ensures get { (settings : SettingsView) (history between : List EventOf) (actor : ActorId)
        → NoneBy actor between → (zone : ℕ) (asker : AskerOf) (c : GetCommandOf) (outcome : OutcomeOf)
        → IsGetOutcome zone asker c outcome (account_of settings history actor)
        → IsGetOutcome zone asker c outcome (account_of settings (history ++ between) actor) }
    ensures put { (settings : SettingsView) (history between : List EventOf) (actor : ActorId)
        → NoneBy actor between → (zone : ℕ) (asker : AskerOf) (c : PutCommandOf) (body : Body) (outcome : OutcomeOf)
        → IsPutOutcome zone asker c body outcome (account_of settings history actor) (own_events history actor)
        → IsPutOutcome zone asker c body outcome (account_of settings (history ++ between) actor) (own_events (history ++ between) actor) }
{}
