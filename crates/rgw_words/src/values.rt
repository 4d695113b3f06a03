//! What the values of options mean.
ghost use Rattle.std.specs.Prelude.{◌≡◌, ◌==◌, not};
ghost use Rattle.std.specs.List.{list_all};
ghost use Rattle.std.specs.Char.{is_ascii_digit};
ghost use Rattle.object_words.specs.Limits.{is_name};
ghost use Rattle.rgw_words.specs.Values.{begins_with_dash, is_bucket, moment_of};

use rgw_model::LATEST_MOMENT;

/// The longest name of a container, in bytes.
const MAX_NAME: usize = 256;

pub(crate) fn begins_with_dash(word: &str) -> bool
    ensures { result ≡ begins_with_dash word.now }
{
    word.starts_with('-')
}

fn is_container_name(name: &[u8]) -> bool
    ensures { result ≡ is_name 256 name.now }
{
    !name.is_empty() && name.len() <= MAX_NAME && has_no_zero(name)
}

fn has_no_zero(name: &[u8]) -> bool
    ensures { result ≡ list_all (λ b. not (b == 0)) name.now }
{
    name.iter().all(|byte| *byte != 0)
}

/// Whether the word can be the value of `--bucket`.
pub(crate) fn is_bucket(word: &str) -> bool
    ensures { result ≡ is_bucket word.now }
{
    !begins_with_dash(word) && is_container_name(word.as_bytes())
}

pub(crate) fn all_digits(word: &[u8]) -> bool
    ensures { result ≡ list_all is_ascii_digit word.now }
{
    word.iter().all(|b| b.is_ascii_digit())
}

/// The moment that the value of `--now` says.
pub(crate) fn moment_of(word: &str) -> Option<u64>
    ensures { result ≡ moment_of word.now }
{
    // `parse` would take a plus sign in front.
    if !all_digits(word.as_bytes()) {
        return None;
    }
    let Ok(moment) = word.parse::<u64>() else {
        return None;
    };
    if moment <= LATEST_MOMENT {
        Some(moment)
    } else {
        None
    }
}
