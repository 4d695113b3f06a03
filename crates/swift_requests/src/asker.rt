//! Who asks, and what the users of an account alone may do.
ghost use Rattle.std.specs.Prelude.{◌≡◌, IfOk};
ghost use Rattle.swift_requests.specs.Askers.{asker_of, own_verdict, is_unknown, denial_of, denied_by};

use http_model::{Head, field_value};
use rgw_types::Text;
use std::alloc::AllocError;
use swift_auth::{Deed, Rule, Users, Verdict, judge};
use swift_reply::{Denial, SwiftRefusal};
use task_words::Asker;

/// Who asks under this account, by the last X-Auth-Token: nobody where none was sent. There is no asker, and the
/// reply is 401, where no user has the token.
#[tactic(auto, unfolding(crate::specs::Askers::asker_of))]
pub fn asker_of(users: &Users, head: &Head, account: Text) -> Result<Option<Asker>, AllocError>
    ensures { IfOk result (λ asker. asker ≡ asker_of users.now head.now account) }
{
    let Some(token) = field_value(head.fields.as_slice(), b"x-auth-token") else {
        let user = None;
        return Ok(Some(Asker { account, user }));
    };
    let Some(user) = users.who(token) else {
        return Ok(None);
    };
    let user = Some(user.clone()?);
    Ok(Some(Asker { account, user }))
}

/// What the policy says of who acts on the account, or makes, changes or removes a container of it.
pub(crate) fn own_verdict(asker: &Asker) -> Verdict
    ensures { result ≡ own_verdict asker.now }
{
    judge(asker.user.as_ref(), &asker.account, None, Deed::OwnAccount)
}

/// Whether a token is needed, and none was sent.
pub(crate) fn is_unknown(verdict: Verdict) -> bool
    ensures { result ≡ is_unknown verdict }
{
    verdict == Verdict::Unknown
}

/// How the 403 names the rule.
fn denial_of(rule: Rule) -> Denial
    ensures { result ≡ denial_of rule }
{
    match rule {
        Rule::Account => Denial::Account,
        Rule::Read => Denial::Read,
        Rule::Write => Denial::Write,
    }
}

/// The 403, where a rule refuses the user.
pub(crate) fn denied_by(verdict: Verdict) -> Option<SwiftRefusal>
    ensures { result ≡ denied_by verdict }
{
    match verdict {
        Verdict::Denied { rule } => Some(SwiftRefusal::Denied(denial_of(rule))),
        Verdict::Granted | Verdict::Unknown => None,
    }
}
