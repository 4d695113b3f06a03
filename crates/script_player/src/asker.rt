//! Who asks: a user, under the own account.
ghost use Rattle.std.specs.Prelude.{◌≡◌, IfOk};
ghost use Rattle.script_player.specs.Requests.{asker_of};

use std::alloc::AllocError;
use swift_auth::User;
use task_words::Asker;

/// The user as the one who asks, under the own account.
pub(crate) fn asker_of(user: &User) -> Result<Asker, AllocError>
    ensures { IfOk result (λ asker. asker ≡ asker_of user.now) }
{
    Ok(Asker {
        account: user.account().clone()?,
        user: Some(user.clone()?),
    })
}
