//! The words behind a command, which are options.
ghost use Rattle.std.specs.Prelude.{◌≡◌, true, false, None, Some, IfOk, IsErrOf, IfSome, MatchOption, map, string_bytes};
ghost use Rattle.realm_model.specs.Settings.{IsBetween, IsSettings};
ghost use Rattle.object_words.specs.Limits.{is_name};
ghost use Rattle.rgw_words.specs.Words.{bucket_in, now_in, settings_with, settings_in, usual_with, usual_behind, users_text, words_behind, may_be_behind, once_of, may_ask_once, script_of, may_ask_script};

use crate::fault::WordsFault;
use crate::named_users::named_users;
use crate::options::{are_options, number_in, value_of};
use crate::values::{is_bucket, moment_of};
use object_words::BucketName;
use realm_model::Settings;
use rgw_types::Text;
use std::alloc::{AllocError, Global};
use swift_auth::Users;

/// The most bytes that an object may be allowed, and is where nothing is said.
const LARGEST: u64 = 5_368_709_120;

/// What the words `once [OPTIONS]` ask, to serve the connection of the input to a new realm, and the words
/// `script [OPTIONS]`, to run the script of the input over one.
#[derive(Drop)]
pub struct RunWords {
    /// The name of a container that is made first, of the first user's account.
    pub bucket: Option<BucketName>,
    /// What the realm is set to.
    pub settings: Settings,
    /// A moment in microseconds since 1970, where one is said: that of each event of `once`, which then asks no
    /// clock; and that at which the clock of `script` begins.
    pub now: Option<u64>,
    /// The users. The first owns the container that is made first, and makes the requests of a script.
    pub users: Users,
}

/// What the options of every command say, the container's name lent.
#[derive(Clone, Copy)]
struct Parts<'a> {
    bucket: Option<&'a str>,
    settings: Settings,
    now: Option<u64>,
}

/// Reads the words behind the program's name, where they ask to serve a connection. The name of a container is
/// 1 to 256 bytes without a byte 0; the numbers are decimal digits, the moment up to 253402300799999999; the
/// value of `--users` is a users text (`Users::read`); no value begins with `-`.
///
/// Where memory is wanting, the users text may be none.
pub fn read_once(alloc: Global, words: &[String]) -> Result<RunWords, WordsFault>
    ensures ok { IfOk result (λ once. once_of (map string_bytes words.now) ≡ Some once) }
    ensures bounds { IfOk result (λ once. IsSettings once.settings) }
    ensures refused { IsErrOf result WordsFault.Refused
        → once_of (map string_bytes words.now) ≡ None }
    ensures out_of_memory { IsErrOf result WordsFault.OutOfMemory
        → may_ask_once (map string_bytes words.now) ≡ true }
{
    read_behind(alloc, "once", false, words)
}

/// Reads the words behind the program's name, where they ask to run a script, with the same options.
///
/// Where memory is wanting, the users text may be none.
pub fn read_script(alloc: Global, words: &[String]) -> Result<RunWords, WordsFault>
    ensures ok { IfOk result (λ script. script_of (map string_bytes words.now) ≡ Some script) }
    ensures bounds { IfOk result (λ script. IsSettings script.settings) }
    ensures refused { IsErrOf result WordsFault.Refused
        → script_of (map string_bytes words.now) ≡ None }
    ensures out_of_memory { IsErrOf result WordsFault.OutOfMemory
        → may_ask_script (map string_bytes words.now) ≡ true }
{
    read_behind(alloc, "script", false, words)
}

/// Reads this command and the options behind it, those of a server among them or not.
pub(crate) fn read_behind(
    alloc: Global,
    command: &str,
    serving: bool,
    words: &[String],
) -> Result<RunWords, WordsFault>
    ensures ok { IfOk result (λ asked. words_behind command.now serving (map string_bytes words.now) ≡ Some asked) }
    ensures bounds { IfOk result (λ asked. IsSettings asked.settings) }
    ensures refused { IsErrOf result WordsFault.Refused
        → words_behind command.now serving (map string_bytes words.now) ≡ None }
    ensures out_of_memory { IsErrOf result WordsFault.OutOfMemory
        → may_be_behind command.now serving (map string_bytes words.now) ≡ true }
{
    let Some(parts) = parts_behind(command, serving, words) else {
        return Err(WordsFault::Refused);
    };
    let users = match named_users(alloc, users_text(words)) {
        Ok(users) => users,
        Err(fault) => return Err(fault),
    };
    let Ok(bucket) = own_bucket(alloc, parts.bucket) else {
        return Err(WordsFault::OutOfMemory);
    };
    Ok(RunWords {
        bucket,
        settings: parts.settings,
        now: parts.now,
        users,
    })
}

/// The name of a container, kept.
fn own_bucket(alloc: Global, name: Option<&str>) -> Result<Option<BucketName>, AllocError>
    requires { IfSome name (λ name. is_name 256 name.now ≡ true) }
    ensures { IfOk result (λ bucket. MatchOption name.entry (bucket ≡ None) (λ name. bucket ≡ Some name.now)) }
{
    let Some(name) = name else {
        return Ok(None);
    };
    let bucket = BucketName::new(Text::from_str(alloc, name)?).unwrap();
    Ok(Some(bucket))
}

/// The users text, if the words have one.
fn users_text(words: &[String]) -> Option<&str>
    ensures { MatchOption result (users_text (map string_bytes words.now) ≡ None)
        (λ text. users_text (map string_bytes words.now) ≡ Some text.now) }
{
    match words {
        [] => None,
        [_, options @ ..] => value_of("--users", options),
    }
}

/// What the words ask but for their users, where they are this command and options behind it.
fn parts_behind<'a>(command: &str, serving: bool, words: &'a [String]) -> Option<Parts<'a>>
    ensures parts { MatchOption result (usual_behind command.now serving (map string_bytes words.now) ≡ None)
        (λ parts. MatchOption parts.bucket
        (usual_behind command.now serving (map string_bytes words.now) ≡ Some (usual_with None parts.settings parts.now))
        (λ name. (usual_behind command.now serving (map string_bytes words.now) ≡ Some (usual_with (Some name.now) parts.settings parts.now)) × (is_name 256 name.now ≡ true))) }
    ensures bounds { IfSome result (λ parts. IsSettings parts.settings) }
{
    let [word, options @ ..] = words else {
        return None;
    };
    if word.as_str() != command || !are_options(serving, options) {
        return None;
    }
    let bucket = bucket_in(value_of("--bucket", options))?;
    let settings = settings_in(options)?;
    let now = now_in(value_of("--now", options))?;
    Some(Parts {
        bucket,
        settings,
        now,
    })
}

/// The container that is made first, if one is.
fn bucket_in(word: Option<&str>) -> Option<Option<&str>>
    ensures { MatchOption word.entry (result ≡ Some None)
        (λ word. MatchOption result (bucket_in (Some word.now) ≡ None)
        (λ bucket. MatchOption bucket ⊥ (λ name. (bucket_in (Some word.now) ≡ Some (Some name.now)) × (is_name 256 name.now ≡ true)))) }
{
    match word {
        None => Some(None),
        Some(word) => {
            if is_bucket(word) {
                Some(Some(word))
            } else {
                None
            }
        }
    }
}

/// The moment that is said, if one is.
fn now_in(word: Option<&str>) -> Option<Option<u64>>
    ensures { MatchOption word.entry (result ≡ now_in None) (λ word. result ≡ now_in (Some word.now)) }
{
    match word {
        None => Some(None),
        Some(word) => {
            let moment = moment_of(word)?;
            Some(Some(moment))
        }
    }
}

/// What the realm is set to.
fn settings_in(options: &[String]) -> Option<Settings>
    ensures settings { result ≡ settings_in (map string_bytes options.now) }
    ensures bounds { IfSome result IsSettings }
{
    let stripe = number_in(16, 4_194_304, 4_194_304, value_of("--stripe", options))?;
    let frame = number_in(16, 65_536, 4096, value_of("--frame", options))?;
    let frames = number_in(1, 4_194_304, 16_384, value_of("--frames", options))?;
    let shards = number_in(1, 1999, 11, value_of("--shards", options))?;
    let seconds = number_in(1, 86_400, 120, value_of("--tag-seconds", options))?;
    let largest = number_in(1, LARGEST, LARGEST, value_of("--largest", options))?;
    settings_with(stripe, frame, frames, shards, seconds, largest)
}

/// The settings of one zone, unless its frames have more than 8 GiB.
fn settings_with(
    stripe: u64,
    frame: u64,
    frames: u64,
    shards: u64,
    seconds: u64,
    largest: u64,
) -> Option<Settings>
    requires stripe { IsBetween 16 4194304 stripe }
    requires frame { IsBetween 16 65536 frame }
    requires frames { IsBetween 1 4194304 frames }
    requires shards { IsBetween 1 1999 shards }
    requires seconds { IsBetween 1 86400 seconds }
    requires largest { IsBetween 1 5368709120 largest }
    ensures settings { result ≡ settings_with stripe frame frames shards seconds largest }
    ensures bounds { IfSome result IsSettings }
{
    Settings::new(
        1,
        stripe as u32,
        frame as u32,
        frames as u32,
        shards as u32,
        seconds * 1_000_000,
        7_200_000_000,
        largest,
        100_000,
    )
}
