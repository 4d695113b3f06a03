ghost use Rattle.std.specs.Prelude.{◌≡◌};
ghost use Rattle.list_words.specs.Listings.{is_before};

use crate::Key;
use byte_order::compare;
use object_words::{BucketName, ObjectName};
use rgw_types::Text;
use std::alloc::{AllocError, Global};

/// The greatest number of rows in one listing.
const ROW_LIMIT: u32 = 10000;

/// What a listing asks for (OpenStack Object Storage API v1, list objects).
#[derive(Debug, Drop)]
pub struct ListCommand {
    pub container: BucketName,
    /// The greatest number of rows; above 10000 it counts as 10000.
    pub limit: u32,
    /// Keys above this text are listed.
    pub marker: Text,
    /// Where it is not empty, keys below this text are listed.
    pub end_marker: Text,
    /// Names that begin with this text are listed.
    pub prefix: Text,
    /// Where it is not empty, a name is listed up to and with its first delimiter behind the prefix.
    pub delimiter: Text,
}

impl ListCommand {
    ghost use Rattle.std.specs.Prelude.{◌≡◌, ℕ, List, true, false, IfSome, IfNone, IfOk};
    ghost use Rattle.list_words.specs.Listings.{begins_with, is_before, in_scope, is_past, subdir_of, most_rows, IsKey};

    /// How many rows are listed at most.
    pub fn most_rows(&self) -> usize
        ensures { result ≡ most_rows self.now }
    {
        self.limit.min(ROW_LIMIT) as usize
    }

    /// Under what the name is listed; `None` where the listing does not ask for it.
    pub fn key<'a>(&self, name: &'a ObjectName) -> Option<Key<'a>>
        ensures none { IfNone result (in_scope self.now name.now ≡ false) }
        ensures some { IfSome result (λ key.
            (in_scope self.now name.now ≡ true) × IsKey (subdir_of self.now name.now) key) }
    {
        let name = name.as_text().as_str();
        let rest = name.strip_prefix(self.prefix.as_str())?;
        let key = self.folded(name, rest);
        let text = key.text(name);
        if is_before(self.marker.as_str(), text) && self.is_before_end(text) {
            Some(key)
        } else {
            None
        }
    }

    /// Whether the listing asks neither for the name nor for any above it.
    pub fn is_past(&self, name: &ObjectName) -> bool
        ensures { result ≡ is_past self.now name.now }
    {
        let name = name.as_text().as_str();
        match name.strip_prefix(self.prefix.as_str()) {
            Some(rest) => {
                let key = self.folded(name, rest);
                !self.is_before_end(key.text(name))
            }
            None => is_before(self.prefix.as_str(), name),
        }
    }

    /// A text below each name for which the listing asks.
    pub fn start(&self, alloc: Global) -> Result<Text, AllocError>
        ensures { IfOk result (λ start.
            (name : List ℕ) → in_scope self.now name ≡ true → is_before start name ≡ true) }
    {
        let below = text_below(alloc, self.prefix.as_str())?;
        if is_before(self.marker.as_str(), below.as_str())
            && is_before(below.as_str(), self.prefix.as_str())
        {
            Ok(below)
        } else {
            self.marker.clone()
        }
    }
}

impl ListCommand {
    ghost use Rattle.std.specs.Prelude.{◌≡◌, ◌++◌};
    ghost use Rattle.list_words.specs.Listings.{is_before_end, subdir_of, IsKey};

    /// Under what a name is listed that has this rest behind the prefix.
    fn folded<'a>(&self, name: &'a str, rest: &str) -> Key<'a>
        requires { name.now ≡ self.now.prefix ++ rest.now }
        ensures { IsKey (subdir_of self.now name.now) result }
    {
        if self.delimiter.is_empty() {
            return Key::Whole;
        }
        match rest.split_once(self.delimiter.as_str()) {
            Some((_, behind)) => match name.strip_suffix(behind) {
                Some(subdir) => Key::Subdir(subdir),
                None => unreachable!(),
            },
            None => Key::Whole,
        }
    }

    fn is_before_end(&self, key: &str) -> bool
        ensures { result ≡ is_before_end self.now key.now }
    {
        self.end_marker.is_empty() || is_before(key, self.end_marker.as_str())
    }
}

/// Whether the first text stands before the second, byte by byte.
fn is_before(one: &str, other: &str) -> bool
    ensures { result ≡ is_before one.now other.now }
{
    compare(one.as_bytes(), other.as_bytes()).is_lt()
}

/// A text that mostly is the greatest of those below this one that are not long.
fn text_below(alloc: Global, text: &str) -> Result<Text, AllocError> {
    let mut chars = text.chars();
    let Some(last) = chars.next_back() else {
        return Ok(Text::new(alloc));
    };
    let mut below = String::from_str(alloc, chars.as_str())?;
    if let Some(before) = u32::from(last).checked_sub(1).and_then(char::from_u32) {
        below.push(before)?;
        below.push(char::MAX)?;
    }
    Ok(Text::from_string(below))
}
