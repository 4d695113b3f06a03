//! What is written where a task ended.
ghost use Rattle.std.specs.Prelude.{◌≡◌};
ghost use Rattle.call_words.specs.Ends.{on_object, on_container, on_account};
ghost use Rattle.request_service.specs.Requests.{ending_of};

use task_account::AccountOutcome;
use task_container::{ContainerOutcome, ContainerRefusal, ContainerReply};
use task_words::{MapReply, Outcome, Refusal};

/// What is written where a task ended so.
#[derive(Clone, Copy, Debug, PartialEq, Eq)]
pub enum Ending {
    /// The reply.
    Replied,
    /// The reply, also where the body of the request broke off: the row of the container refused it.
    ByRow,
    /// No more: the GET read the head at the first clock, and at the second one of its stripes was gone.
    Late { read_at: u64, clock: u64 },
}

/// That of a request on an object, or of a listing.
pub(crate) fn object_ending(outcome: &Outcome) -> Ending
    ensures { result ≡ ending_of (on_object outcome.now) }
{
    match outcome {
        Outcome::Done(
            MapReply::Refused(Refusal::Unauthorized | Refusal::Denied(_) | Refusal::NoContainer),
        ) => Ending::ByRow,
        Outcome::LateRead { read_at, clock } => Ending::Late {
            read_at: *read_at,
            clock: *clock,
        },
        _ => Ending::Replied,
    }
}

/// That of a request on a container.
pub(crate) fn container_ending(outcome: &ContainerOutcome) -> Ending
    ensures { result ≡ ending_of (on_container outcome.now) }
{
    match outcome {
        ContainerOutcome::Done(
            ContainerReply::Refused(ContainerRefusal::ByRow(_) | ContainerRefusal::NotYours),
        )
        | ContainerOutcome::Busy { .. } => Ending::ByRow,
        _ => Ending::Replied,
    }
}

/// That of a request on an account: no row refuses it.
pub(crate) fn account_ending(_outcome: &AccountOutcome) -> Ending
    ensures { result ≡ ending_of (on_account _outcome.now) }
{
    Ending::Replied
}
