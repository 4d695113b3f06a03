use task_account::AccountOutcome;
use task_container::ContainerOutcome;
use task_words::{JobOutcome, Outcome};

/// How an actor ended, lent.
#[derive(Clone, Copy, Debug)]
pub enum ActorOutcome<'a> {
    /// A request of a client on an object, or for a listing.
    Request(&'a Outcome),
    /// A request for a container.
    Container(&'a ContainerOutcome),
    /// A request for an account.
    Account(&'a AccountOutcome),
    /// A job of an administrator.
    Job(&'a JobOutcome),
}
