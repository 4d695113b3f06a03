//! A request on a container.
ghost use Rattle.std.specs.Prelude.{◌≡◌, IfOk};
ghost use Rattle.task_container.specs.Fits.{stage_of, request_of, fits};
ghost use Rattle.task_container.specs.Stages.{IsOpen};
ghost use Rattle.request_service.specs.Requests.{FitsFirst};

use crate::beside::Beside;
use crate::ending::{Ending, container_ending};
use crate::request::Request;
use call_words::push_container_outcome;
use http_model::ReplyForm;
use realm_door::Staged;
use realm_model::Settings;
use std::alloc::{AllocError, Global};
use task_container::{ContainerOutcome, ContainerRequest, ContainerTask};
use task_words::Asker;

/// A request on a container, and who asks: users of its account are shown its lists.
pub type Containers = Beside<ContainerTask, Asker>;

/// Stages of a request on a container that made no event.
pub(crate) fn containers(
    settings: &Settings,
    request: ContainerRequest,
) -> Result<Containers, AllocError>
    ensures command { IfOk result (λ t. request_of t.task ≡ request) }
    ensures asker { IfOk result (λ t. t.beside ≡ request.asker) }
    ensures fits { IfOk result (λ t. FitsFirst settings.now request.zone (fits t.task)) }
    ensures open { IfOk result (λ t. IsOpen (stage_of t.task)) }
{
    let beside = Asker {
        account: request.asker.account.clone()?,
        user: request.asker.user.clone()?,
    };
    Ok(Beside {
        task: ContainerTask::new(settings, request),
        beside,
    })
}

impl Request for Beside<ContainerTask, Asker> {
    ghost use Rattle.std.specs.Prelude.{◌≡◌, false};
    ghost use Rattle.call_words.specs.Ends.{on_container};
    ghost use Rattle.task_container.specs.Fits.{stage_of, request_of};
    ghost use Rattle.task_container.specs.Stages.{IsOpen};
    ghost use Rattle.request_service.specs.NoBytes.{none_are, none_shown};
    ghost use Rattle.request_service.specs.ContainerLaws.{asks, EndsWith, onward, begun, goes_on, may_end, right, so_far, early};

    ghost question = { λ c. asks c.0 };

    ghost begins = { λ t. IsOpen (stage_of t.task) × (t.beside ≡ (request_of t.task).asker) };

    ghost is_sound = { λ t. t.beside ≡ (request_of t.task).asker };

    ghost end_by = { on_container };

    ghost ends_with = { λ t outcome. EndsWith t.task outcome };

    ghost is_broken = { λ t. false };

    fn ended(&self) -> Option<&ContainerOutcome> {
        self.task.end()
    }

    fn ending(outcome: &ContainerOutcome) -> Ending {
        container_ending(outcome)
    }

    fn is_broken(&self) -> bool {
        false
    }

    fn push_head(&self, _out: &mut Vec<u8>, _form: ReplyForm) -> Result<(), AllocError> {
        Ok(())
    }

    fn push_reply(
        &self,
        _alloc: Global,
        out: &mut Vec<u8>,
        outcome: &ContainerOutcome,
        form: ReplyForm,
    ) -> Result<(), AllocError> {
        push_container_outcome(out, &self.beside, outcome, form)
    }

    ghost unfed = { λ c. tt };

    ghost onward = { onward };

    ghost begun = { begun };

    ghost goes_on = { goes_on };

    ghost first = { λ t u steps begins. none_are };

    ghost shows = { λ t reply sound is. none_shown _ reply is };

    ghost may_end = { may_end };

    ghost unbrought = { λ c d none. none_are };

    ghost brings = { λ t u settings d e moment same f made. none_are };

    ghost front = { λ t settings d reply f is. none_shown _ reply is };

    ghost right = { right };

    ghost so_far = { so_far };

    ghost early = { early };
}
