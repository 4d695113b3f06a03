ghost use Rattle.std.specs.Prelude.{◌≡◌, ◌^◌, ◌<◌, MatchResult};
ghost use Rattle.object_pool.specs.Places.{object_of};
ghost use Rattle.object_words.specs.Answers.{Answers};
ghost use Rattle.object_words.specs.Logs.{Log as LogOf, log_page, logged, trimmed_refusal};
ghost use Rattle.object_words.specs.Numbers.{next};
ghost use Rattle.class_words.specs.Works.{Works};
ghost use Rattle.cls_log.specs.LogObjects.{IsLogObject};

use crate::rows::{first_of, last_of, read_rows};
use index_entry::{LOG_ROW_MOST, log_key, write_what};
use object_pool::{OutOfMemory, Place};
use object_words::{ClassFault, LogPage, LogWhat, Why};
use rgw_types::Bytes;
use std::alloc::Global;

/// Adds a row that names this at the end of the log, and answers its position, which is one more than the
/// last. Where memory is wanting the log is what it was.
pub fn add(alloc: Global, log: &mut Place<'_>, what: &LogWhat) -> Result<u64, OutOfMemory>
    requires { (l : LogOf) × IsLogObject (object_of log.old) l × (l.last < 2 ^ 63) }
    ensures works { Works log.old log.new }
    ensures answers { (l : LogOf) → IsLogObject (object_of log.old) l → l.last < 2 ^ 63 →
        MatchResult result
        (λ position. (position ≡ next l.last) × IsLogObject (object_of log.new) (logged l what.now))
        (λ _. IsLogObject (object_of log.new) l) }
{
    let position = last_of(log) + 1;
    let mut out = [0; LOG_ROW_MOST];
    let len = write_what(what, &mut out);
    let key = Bytes::from_slice(alloc, &log_key(position))?;
    let value = Bytes::from_slice(alloc, &out[..len])?;
    let last = Bytes::from_slice(alloc, &position.to_be_bytes())?;
    log.put_row(alloc, key, value)?;
    log.set_attrs(last);
    Ok(position)
}

/// The first rows above a position, at most `limit` of them, and what the log tells beside. It is refused
/// where rows above the position are no longer kept.
pub fn after(
    alloc: Global,
    log: &Place<'_>,
    position: u64,
    limit: u32,
) -> Result<LogPage, ClassFault>
    requires { (l : LogOf) × IsLogObject (object_of log.now) l }
    ensures { (l : LogOf) → IsLogObject (object_of log.now) l →
        Answers result (trimmed_refusal l position) (λ page. page ≡ log_page l 0 position limit) (IsLogObject (object_of log.now)) l l }
{
    let Ok(first) = first_of(alloc, log) else {
        return Err(ClassFault::OutOfMemory);
    };
    if position.saturating_add(1) < first {
        return Err(ClassFault::No(Why::Trimmed { first }));
    }
    let Ok(page) = log.page(alloc, &log_key(position), limit) else {
        return Err(ClassFault::OutOfMemory);
    };
    let Ok(rows) = read_rows(alloc, page.rows.as_slice()) else {
        return Err(ClassFault::OutOfMemory);
    };
    Ok(LogPage {
        rows,
        last: last_of(log),
        first,
        tags: 0,
        end: page.end,
    })
}
