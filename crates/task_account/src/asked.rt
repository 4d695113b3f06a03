//! What a request for an account asks of the names of its containers.
ghost use Rattle.std.specs.Prelude.{◌≡◌, IfOk};

use crate::AccountReply;
use crate::request::{AccountCommand, AccountListing};
use crate::rows::has_subdir;
use list_words::{AccountRows, Key, ListCommand};
use object_words::{BucketName, ObjectName};
use rgw_types::Text;
use std::alloc::{AllocError, Global};

/// What is asked of the names.
#[derive(Debug, Drop)]
pub enum Asked {
    /// The sums over all of them.
    Counts,
    /// Their rows, as those of objects are listed. The container is not looked at.
    Rows(ListCommand),
}

/// What a name of a page is to a request.
#[derive(Debug, Drop)]
pub enum Place {
    /// Neither it nor any above it is asked for.
    Past,
    /// It is not asked for, or the last row is of its subdir.
    Elsewhere,
    /// It is asked for, and is listed under a subdir or by itself.
    Due(Option<Text>),
}

impl Asked {
    ghost use Rattle.std.specs.Prelude.{◌≡◌, IfOk};
    ghost use Rattle.task_account.specs.Asking.{asked_of, IsStart, empty_reply, is_full, place_of};

    /// What the command asks.
    pub fn new(alloc: Global, command: AccountCommand) -> Result<Asked, AllocError>
        ensures { IfOk result (λ asked. asked ≡ asked_of command) }
    {
        match command {
            AccountCommand::Head => Ok(Asked::Counts),
            AccountCommand::List(listing) => Ok(Asked::Rows(listing_of_objects(alloc, listing)?)),
        }
    }

    /// A text below each name that is asked for.
    pub fn start(&self, alloc: Global) -> Result<Text, AllocError>
        ensures { IfOk result (λ start. IsStart self.now start) }
    {
        match self {
            Asked::Counts => Ok(Text::new(alloc)),
            Asked::Rows(command) => command.start(alloc),
        }
    }

    /// The reply to which no name came yet.
    pub fn nothing(&self, alloc: Global) -> AccountReply
        ensures { result ≡ empty_reply self.now }
    {
        match self {
            Asked::Counts => AccountReply::Counted {
                containers: 0,
                objects: 0,
                bytes: 0,
            },
            Asked::Rows(_) => AccountReply::Listed(AccountRows::new(alloc)),
        }
    }

    /// Whether so many rows are there as are listed at most.
    pub fn is_full(&self, reply: &AccountReply) -> bool
        ensures { result ≡ is_full self.now reply.now }
    {
        match (self, reply) {
            (Asked::Rows(command), AccountReply::Listed(rows)) => rows.len() >= command.most_rows(),
            _ => false,
        }
    }

    /// What the name is to the request, behind these rows.
    pub fn place(
        &self,
        alloc: Global,
        reply: &AccountReply,
        name: &BucketName,
    ) -> Result<Place, AllocError>
        ensures { IfOk result (λ place. place ≡ place_of self.now reply.now name.now) }
    {
        match self {
            Asked::Counts => Ok(Place::Due(None)),
            Asked::Rows(command) => place_by_name(alloc, command, reply, &as_object(name)?),
        }
    }
}

ghost use Rattle.task_account.specs.Asking.{as_objects, listed_place};

/// The listing of objects that asks the same of their names.
fn listing_of_objects(alloc: Global, listing: AccountListing) -> Result<ListCommand, AllocError>
    ensures { IfOk result (λ command. command ≡ as_objects listing) }
{
    let AccountListing {
        limit,
        marker,
        end_marker,
        prefix,
        delimiter,
    } = listing;
    let Ok(container) = BucketName::new(Text::from_str(alloc, "-")?) else {
        unreachable!()
    };
    Ok(ListCommand {
        container,
        limit,
        marker,
        end_marker,
        prefix,
        delimiter,
    })
}

/// The name as one of an object.
fn as_object(name: &BucketName) -> Result<ObjectName, AllocError>
    ensures { IfOk result (λ object. object ≡ name.now) }
{
    match ObjectName::new(name.as_text().clone()?) {
        Ok(object) => Ok(object),
        Err(_) => unreachable!(),
    }
}

/// What the name is to the listing, behind these rows.
fn place_by_name(
    alloc: Global,
    command: &ListCommand,
    reply: &AccountReply,
    name: &ObjectName,
) -> Result<Place, AllocError>
    ensures { IfOk result (λ place. place ≡ listed_place command.now reply.now name.now) }
{
    match command.key(name) {
        Some(Key::Whole) => Ok(Place::Due(None)),
        Some(Key::Subdir(subdir)) if has_subdir(reply, subdir) => Ok(Place::Elsewhere),
        Some(Key::Subdir(subdir)) => Ok(Place::Due(Some(Text::from_str(alloc, subdir)?))),
        None if command.is_past(name) => Ok(Place::Past),
        None => Ok(Place::Elsewhere),
    }
}
