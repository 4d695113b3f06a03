//! Known histories: the own events of their requests for containers are in order, and end as they are to.
#![tactic(auto)]

ghost use Rattle.std.specs.Prelude.{codes};
ghost use Rattle.realm_model.specs.KnownWords as words;
ghost use Rattle.realm_model.specs.CancelledClosing as cancelled;
ghost use Rattle.realm_model.specs.ContainerLifecycle as lifecycle;
ghost use Rattle.realm_model.specs.Owns.{own_events};
ghost use Rattle.task_container.specs.declared.outcome.ContainerOutcome.TheVariants.{Done};
ghost use Rattle.task_container.specs.declared.outcome.ContainerRefusal.TheVariants.{NotEmpty};
ghost use Rattle.task_container.specs.declared.outcome.ContainerReply.TheVariants.{Made, Accepted, Removed, Refused};
ghost use Rattle.task_container.specs.Known.{Plays, to_make, to_remove};

/// A container is made, found, and removed; another that is not empty is not removed.
pub fn container_lifecycle()
    ensures made { Plays (to_make words.box) 2 (Done Made) (own_events lifecycle.history (words.actor 1)) }
    ensures full { Plays (to_remove words.box) 2 (Done (Refused (NotEmpty words.k))) (own_events lifecycle.history (words.actor 3)) }
    ensures another { Plays (to_make (codes "e")) 2 (Done Made) (own_events lifecycle.history (words.actor 4)) }
    ensures there { Plays (to_make (codes "e")) 2 (Done Accepted) (own_events lifecycle.history (words.actor 5)) }
    ensures removed { Plays (to_remove (codes "e")) 2 (Done Removed) (own_events lifecycle.history (words.actor 7)) }
{}

/// A closing was cancelled before the row was taken away: it begins anew, and an object is there by then.
pub fn cancelled_closing()
    ensures { Plays (to_remove (codes "e")) 2 (Done (Refused (NotEmpty words.k))) (own_events cancelled.history (words.actor 3)) }
{}
