ghost use Rattle.std.specs.Prelude.{◌≡◌, ◌≤◌};
ghost use Rattle.task_words.specs.Spans.{bytes_taken, range_between};

/// The range of bytes that is asked for (RFC 9110, section 14.1.2).
#[derive(Clone, Copy, Debug, PartialEq, Eq)]
pub enum Span {
    /// From the first of these bytes up to and with the second.
    Between(u64, u64),
    /// From this byte on.
    From(u64),
    /// So many bytes at the end.
    Last(u64),
}

/// The bytes of an object: `count` from `start` on.
#[derive(Clone, Copy, Debug, PartialEq, Eq)]
pub struct ByteRange {
    pub start: u64,
    pub count: u64,
}

/// The bytes of an object of `size` bytes that are shown. All of them where no range is asked for, or one
/// whose first byte is behind its last; `None` where the range begins behind the object, or is of the
/// last 0 bytes.
pub fn bytes_taken(span: Option<Span>, size: u64) -> Option<ByteRange>
    ensures { result ≡ bytes_taken span size }
{
    let whole = ByteRange {
        start: 0,
        count: size,
    };
    match span {
        None => Some(whole),
        Some(Span::Between(first, last)) if last < first => Some(whole),
        Some(Span::Between(first, last)) => range_between(first, last, size),
        Some(Span::From(first)) => range_between(first, u64::MAX, size),
        Some(Span::Last(0)) => None,
        Some(Span::Last(count)) => {
            let count = count.min(size);
            Some(ByteRange {
                start: size - count,
                count,
            })
        }
    }
}

/// The bytes from the first up to and with the last, as far as there are such.
fn range_between(first: u64, last: u64, size: u64) -> Option<ByteRange>
    requires { first ≤ last }
    ensures { result ≡ range_between first last size }
{
    if first >= size {
        return None;
    }
    Some(ByteRange {
        start: first,
        count: last.min(size - 1) - first + 1,
    })
}
