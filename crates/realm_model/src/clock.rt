ghost use Rattle.std.specs.Prelude.{◌≡◌};
ghost use Rattle.realm_model.specs.States.{clock_at};

use rgw_model::counted_moment;

/// The clock after an event at a moment: the greatest moment that counts so far.
pub fn clock_at(clock: u64, moment: u64) -> u64
    ensures { result ≡ clock_at clock moment }
{
    clock.max(counted_moment(moment))
}
