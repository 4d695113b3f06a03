//! A request on an account.
ghost use Rattle.std.specs.Prelude.{◌≡◌, IfOk};
ghost use Rattle.realm_door.specs.Turns.{FitsAtFirst};
ghost use Rattle.task_account.specs.Stages.{IsOpen};
ghost use Rattle.task_account.specs.Tasks.{request_of, stage_of, fits};

use crate::beside::Beside;
use crate::ending::{Ending, account_ending};
use crate::request::Request;
use call_words::push_account_outcome;
use http_model::ReplyForm;
use realm_door::Staged;
use std::alloc::{AllocError, Global};
use swift_auth::User;
use swift_reply::ListingForm;
use task_account::{AccountOutcome, AccountRequest, AccountTask};

/// A request on an account, who asks, and how its rows are written.
pub type Accounts = Beside<AccountTask, (Option<User>, ListingForm)>;

/// Stages of a request on an account that made no event.
pub(crate) fn accounts(
    alloc: Global,
    request: AccountRequest,
    user: Option<User>,
    listing: ListingForm,
) -> Result<Accounts, AllocError>
    ensures command { IfOk result (λ t. request_of t.task ≡ request) }
    ensures beside { IfOk result (λ t. t.beside ≡ (user, listing)) }
    ensures fits { IfOk result (λ t. FitsAtFirst request.zone (fits t.task)) }
    ensures open { IfOk result (λ t. IsOpen (stage_of t.task)) }
{
    Ok(Beside {
        task: AccountTask::new(alloc, request)?,
        beside: (user, listing),
    })
}

impl Request for Beside<AccountTask, (Option<User>, ListingForm)> {
    ghost use Rattle.std.specs.Prelude.{◌≡◌, false};
    ghost use Rattle.call_words.specs.Ends.{on_account};
    ghost use Rattle.task_account.specs.Stages.{IsOpen};
    ghost use Rattle.task_account.specs.Tasks.{stage_of};
    ghost use Rattle.request_service.specs.NoBytes.{none_are, none_comes, none_shown};
    ghost use Rattle.request_service.specs.AccountLaws.{asks, EndsWith, onward, begun, may_end, right, so_far, early};

    ghost question = { asks };

    ghost begins = { λ t. IsOpen (stage_of t.task) };

    ghost is_sound = { λ t. Unit {0} };

    ghost end_by = { on_account };

    ghost ends_with = { λ t outcome. EndsWith t.task outcome };

    // A body that breaks off is refused whatever the first page showed.
    ghost is_broken = { λ t. false };

    fn ended(&self) -> Option<&AccountOutcome> {
        self.task.end()
    }

    fn ending(outcome: &AccountOutcome) -> Ending {
        account_ending(outcome)
    }

    fn is_broken(&self) -> bool {
        false
    }

    fn push_head(&self, _out: &mut Vec<u8>, _form: ReplyForm) -> Result<(), AllocError> {
        Ok(())
    }

    fn push_reply(
        &self,
        alloc: Global,
        out: &mut Vec<u8>,
        outcome: &AccountOutcome,
        form: ReplyForm,
    ) -> Result<(), AllocError> {
        push_account_outcome(alloc, out, outcome, self.beside.1, form)
    }

    ghost unfed = { λ c. tt };

    ghost onward = { onward };

    ghost begun = { begun };

    ghost goes_on = { λ t u steps sound. (tt, none_comes) };

    ghost first = { λ t u steps begins. none_are };

    ghost shows = { λ t reply sound is. none_shown _ reply is };

    ghost may_end = { may_end };

    ghost unbrought = { λ c d none. none_are };

    ghost brings = { λ t u settings d e moment same f made. none_are };

    ghost front = { λ t settings d reply f is. none_shown _ reply is };

    ghost right = { right };

    ghost so_far = { so_far };

    ghost early = { early };
}
