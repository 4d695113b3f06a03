ghost use Rattle.std.specs.Prelude.{◌≡◌};
ghost use Rattle.rgw_model.specs.Stamps.{counted_moment};

use date_words::LATEST_MOMENT;

/// The moment as it counts: a later one than the last of the year 9999 is taken as that.
pub fn counted_moment(moment: u64) -> u64
    ensures { result ≡ counted_moment moment }
{
    moment.min(LATEST_MOMENT)
}
