//! A listing of a container.
ghost use Rattle.std.specs.Prelude.{◌≡◌, None};
ghost use Rattle.realm_door.specs.Turns.{FitsAtFirst};
ghost use Rattle.task_list.specs.Tasks.{stage_of};
ghost use Rattle.task_list.specs.declared.stage.Stage.TheVariants.{Look};
ghost use Rattle.request_service.specs.Listings.{command_of, task_of, Fits};

use crate::ending::{Ending, object_ending};
use crate::request::Request;
use call_words::push_list_outcome;
use http_model::ReplyForm;
use realm_door::{Answered, Next, Staged, Taken};
use std::alloc::{AllocError, Global};
use swift_reply::ListingForm;
use task_list::{ListRequest, ListTask};
use task_words::Outcome;

/// A listing, and how its rows are written.
#[derive(Drop)]
pub struct Listing {
    task: ListTask,
    listing: ListingForm,
}

impl Listing {
    /// Stages of a listing that made no event.
    pub fn new(request: ListRequest, listing: ListingForm) -> Listing
        ensures command { command_of result ≡ (request, listing) }
        ensures fits { FitsAtFirst request.zone (Fits result) }
        ensures looks { stage_of (task_of result) ≡ Look None }
    {
        Listing {
            task: ListTask::new(request),
            listing,
        }
    }
}

impl Staged for Listing {
    ghost use Rattle.std.specs.Prelude.{◌≡◌};
    ghost use Rattle.realm_model.specs.Doors.{actor_at};
    ghost use Rattle.realm_model.specs.Histories.{account_of};
    ghost use Rattle.realm_model.specs.Owns.{own_events};
    ghost use Rattle.task_list.specs.Listed.{IsListOutcome};
    ghost use Rattle.task_list.specs.Tasks.{IsOver, IsGoing, op_of, request_of, stage_of, Steps};
    ghost use Rattle.request_service.specs.Listings.{command_of, task_of, Fits};

    type Command = (ListRequest, ListingForm);

    type Outcome = Outcome;

    type Rest = ();

    ghost command = { command_of };

    ghost fits = { Fits };

    ghost means = { λ c outcome settings d. IsListOutcome c.0 outcome
        (account_of settings d.seen (actor_at d)) (own_events d.seen (actor_at d)) };

    ghost is_over = { λ t. IsOver (stage_of (task_of t)) };

    ghost is_ready = { λ t. IsOver (stage_of (task_of t)) → ⊥ };

    ghost op = { λ t. op_of (request_of (task_of t)) (stage_of (task_of t)) };

    ghost is_taken = { λ t u rest. (u ≡ t) × IsGoing (stage_of (task_of t)) };

    ghost steps = { λ t u. Steps (task_of t) (task_of u) };

    fn settle(&mut self) -> Next {
        match self.task.ended() {
            Some(_) => Next::Done,
            None => Next::Event,
        }
    }

    fn end(&self) -> Option<&Outcome> {
        self.task.end()
    }

    fn piece(&self) -> &[u8] {
        &[]
    }

    fn split(&mut self, alloc: Global) -> Result<Taken<()>, AllocError> {
        self.task.split(alloc)
    }

    fn take(&mut self, alloc: Global, rest: (), answered: Answered) {
        self.task.take(alloc, rest, answered);
    }

    fn waits() {
        ListTask::waits();
    }
}

impl Request for Listing {
    ghost use Rattle.std.specs.Prelude.{◌≡◌, None, Some};
    ghost use Rattle.task_list.specs.declared.stage.Stage.TheVariants.{Look};
    ghost use Rattle.call_words.specs.Ends.{on_object};
    ghost use Rattle.task_list.specs.Tasks.{IsSound, ended_in, is_broken, stage_of};
    ghost use Rattle.request_service.specs.Listings.{task_of};
    ghost use Rattle.request_service.specs.NoBytes.{none_are, none_shown};
    ghost use Rattle.request_service.specs.ListLaws.{asks, onward, begun, goes_on, may_end, right, so_far, early};

    ghost question = { asks };

    ghost begins = { λ t. stage_of (task_of t) ≡ Look None };

    ghost is_sound = { λ t. IsSound (stage_of (task_of t)) };

    ghost end_by = { on_object };

    ghost ends_with = { λ t outcome. ended_in (stage_of (task_of t)) ≡ Some outcome };

    ghost is_broken = { λ t. is_broken (stage_of (task_of t)) };

    fn ended(&self) -> Option<&Outcome> {
        self.task.ended()
    }

    fn ending(outcome: &Outcome) -> Ending {
        object_ending(outcome)
    }

    fn is_broken(&self) -> bool {
        self.task.is_broken()
    }

    fn push_head(&self, _out: &mut Vec<u8>, _form: ReplyForm) -> Result<(), AllocError> {
        Ok(())
    }

    fn push_reply(
        &self,
        alloc: Global,
        out: &mut Vec<u8>,
        outcome: &Outcome,
        form: ReplyForm,
    ) -> Result<(), AllocError> {
        push_list_outcome(alloc, out, outcome, self.listing, form)
    }

    ghost unfed = { λ c. tt };

    ghost onward = { onward };

    ghost begun = { begun };

    ghost goes_on = { goes_on };

    ghost first = { λ t u steps begins. none_are };

    ghost shows = { λ t reply sound is. none_shown _ reply is };

    ghost may_end = { may_end };

    ghost unbrought = { λ c d none. none_are };

    ghost brings = { λ t u settings d e moment same f made. none_are };

    ghost front = { λ t settings d reply f is. none_shown _ reply is };

    ghost right = { right };

    ghost so_far = { so_far };

    ghost early = { early };
}
