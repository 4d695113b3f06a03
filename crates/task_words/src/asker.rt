ghost use Rattle.std.specs.Prelude.{◌≡◌, option_copied};
ghost use Rattle.task_words.specs.Rows.{row_refusal};

use crate::Refusal;
use object_words::Bucket;
use rgw_types::Text;
use swift_auth::{Deed, User, Verdict, judge};

/// Who asks, and under which account.
#[derive(Drop)]
pub struct Asker {
    /// The account of the path.
    pub account: Text,
    /// The user whose token was sent; `None` where no token was.
    pub user: Option<User>,
}

impl Asker {
    /// Why the row of the container, as it was read, refuses this: who sent no token and is let do
    /// nothing is not known; then a container that the account does not own is not there; then the
    /// policy refuses a user by its rule.
    pub fn refusal(&self, row: Option<&Bucket>, deed: Deed) -> Option<Refusal>
        ensures { result ≡ row_refusal self.now (option_copied row.entry) deed }
    {
        let found = match row {
            Some(row) => row.owner == self.account,
            None => false,
        };
        match judge(self.user.as_ref(), &self.account, row, deed) {
            Verdict::Unknown => Some(Refusal::Unauthorized),
            Verdict::Granted if found => None,
            Verdict::Denied { rule } if found => Some(Refusal::Denied(rule)),
            Verdict::Granted | Verdict::Denied { .. } => Some(Refusal::NoContainer),
        }
    }
}
