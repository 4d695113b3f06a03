//! The listing of the account.
ghost use Rattle.std.specs.Prelude.{IfOk};
ghost use Rattle.script_words.specs.declared.line.Verb.TheVariants.{Account};
ghost use Rattle.swift_auth.specs.Users.{account_of};
ghost use Rattle.script_player.specs.Requests.{asker_under};
ghost use Rattle.script_player.specs.Plays.{IsBegun, asked_account, AccountStands, AccountEnded, FitsAccount};

use crate::list::MOST_ROWS;
use crate::unfed::Unfed;
use realm_door::Stepping;
use rgw_types::Text;
use std::alloc::{AllocError, Global};
use swift_auth::User;
use task_account::{AccountCommand, AccountListing, AccountRequest, AccountTask};

/// A listing of all containers of the own account that made no event.
pub(crate) fn new_account(
    alloc: Global,
    user: &User,
    zone: u8,
) -> Result<Stepping<AccountTask>, AllocError>
    ensures { IfOk result (λ t. IsBegun (asked_account t) (record { zone = zone; asker = asker_under (account_of user.now); verb = Account }) (AccountStands t) (AccountEnded t) (FitsAccount t)) }
{
    let listing = AccountListing {
        limit: MOST_ROWS,
        marker: Text::new(alloc),
        end_marker: Text::new(alloc),
        prefix: Text::new(alloc),
        delimiter: Text::new(alloc),
    };
    let request = AccountRequest {
        zone,
        account: user.account().clone()?,
        command: AccountCommand::List(listing),
    };
    Ok(Stepping::new(AccountTask::new(alloc, request)?))
}

impl Unfed for AccountTask {
    ghost use Rattle.script_player.specs.Meanings.{MeansAccount};
    ghost use Rattle.script_player.specs.Plays.{account_asked, IsAccount};

    ghost asked = { account_asked };

    ghost is_plain = { IsAccount };

    ghost says = { MeansAccount };

    fn goes_on() {}

    fn tells() {}
}
