//! A GET or a HEAD of an object.
ghost use Rattle.std.specs.Prelude.{◌≡◌};
ghost use Rattle.task_words.specs.Answers.{span_of};

use crate::ending::{Ending, object_ending};
use crate::request::Request;
use call_words::{push_map_reply, push_outcome};
use http_model::ReplyForm;
use std::alloc::{AllocError, Global};
use task_get::{GetRequest, GetTask};
use task_words::{Outcome, Span};

/// The range that counts for the text of the reply.
fn span_in(request: &GetRequest) -> Option<Span>
    ensures { result ≡ span_of request.now.get }
{
    if request.get.body {
        request.get.span
    } else {
        None
    }
}

impl Request for GetTask {
    ghost use Rattle.std.specs.Prelude.{◌≡◌, Some, false};
    ghost use Rattle.task_get.specs.Stages.{IsSound, IsOver, ended_in};
    ghost use Rattle.call_words.specs.Ends.{on_object};
    ghost use Rattle.task_get.specs.declared.stage.Stage.TheVariants.{Look};
    ghost use Rattle.task_get.specs.Tasks.{stage_of, shown_of};
    ghost use Rattle.request_service.specs.Gets.{brought_at, whole_at};
    ghost use Rattle.request_service.specs.GetLaws.{asks, onward, begun, goes_on, first, shows, may_end, unbrought, brings, front, right, so_far, early};

    ghost question = { asks };

    ghost begins = { λ t. stage_of t ≡ Look };

    ghost is_sound = { λ t. IsSound (stage_of t) };

    ghost end_by = { on_object };

    ghost ends_with = { λ t outcome. ended_in (stage_of t) ≡ Some outcome };

    ghost is_broken = { λ t. false };

    ghost shown = { shown_of };

    ghost brought = { brought_at };

    ghost whole = { whole_at };

    fn ended(&self) -> Option<&Outcome> {
        self.ended()
    }

    fn ending(outcome: &Outcome) -> Ending {
        object_ending(outcome)
    }

    fn is_broken(&self) -> bool {
        false
    }

    fn push_head(&self, out: &mut Vec<u8>, form: ReplyForm) -> Result<(), AllocError> {
        match self.shown() {
            Some(reply) => push_map_reply(out, reply, span_in(self.request()), form),
            None => Ok(()),
        }
    }

    fn push_reply(
        &self,
        _alloc: Global,
        out: &mut Vec<u8>,
        outcome: &Outcome,
        form: ReplyForm,
    ) -> Result<(), AllocError> {
        push_outcome(out, outcome, span_in(self.request()), form)
    }

    ghost unfed = { λ c. tt };

    ghost onward = { onward };

    ghost begun = { begun };

    ghost goes_on = { goes_on };

    ghost first = { first };

    ghost shows = { shows };

    ghost may_end = { may_end };

    ghost unbrought = { unbrought };

    ghost brings = { brings };

    ghost front = { front };

    ghost right = { right };

    ghost so_far = { so_far };

    ghost early = { early };
}
