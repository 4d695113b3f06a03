ghost use Rattle.std.specs.Prelude.{◌≡◌};
ghost use Rattle.realm_door.specs.Steps.{back_of};

use realm_model::{Op, Reply};

/// The operation again, where the reply is a refusal. Takes no memory.
pub fn handed_back(op: Op, reply: &Reply) -> Option<Op>
    ensures { result ≡ back_of op reply.now }
{
    match reply {
        Reply::No(_) => Some(op),
        _ => None,
    }
}
