//! The listing of a container.
ghost use Rattle.std.specs.Prelude.{IfOk};
ghost use Rattle.script_words.specs.declared.line.Verb.TheVariants as verbs;
ghost use Rattle.script_player.specs.Requests.{asker_of};
ghost use Rattle.script_player.specs.Plays.{IsBegun, asked_list, ListStands, ListEnded, FitsList};

use crate::asker::asker_of;
use crate::unfed::Unfed;
use list_words::ListCommand;
use object_words::BucketName;
use realm_door::Stepping;
use rgw_types::Text;
use std::alloc::{AllocError, Global};
use swift_auth::User;
use task_list::{ListRequest, ListTask};

/// The most rows of a listing.
pub(crate) const MOST_ROWS: u32 = 10000;

/// A listing of all names of the container that made no event.
pub(crate) fn new_list(
    alloc: Global,
    user: &User,
    zone: u8,
    container: BucketName,
) -> Result<Stepping<ListTask>, AllocError>
    ensures { IfOk result (λ t. IsBegun (asked_list t) (record { zone = zone; asker = asker_of user.now; verb = verbs.List container }) (ListStands t) (ListEnded t) (FitsList t)) }
{
    Ok(Stepping::new(ListTask::new(ListRequest {
        zone,
        asker: asker_of(user)?,
        command: ListCommand {
            container,
            limit: MOST_ROWS,
            marker: Text::new(alloc),
            end_marker: Text::new(alloc),
            prefix: Text::new(alloc),
            delimiter: Text::new(alloc),
        },
    })))
}

impl Unfed for ListTask {
    ghost use Rattle.script_player.specs.Meanings.{MeansRequest};
    ghost use Rattle.script_player.specs.Plays.{list_of, IsList};

    ghost asked = { list_of };

    ghost is_plain = { IsList };

    ghost says = { MeansRequest };

    fn goes_on() {}

    fn tells() {}
}
