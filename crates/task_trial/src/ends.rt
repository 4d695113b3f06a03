//! How requests end.
use task_words::{MapReply, Outcome};

/// Prints how the request of this actor ended.
pub fn tell_end<R: Print>(rt: &R, actor: u64, outcome: Option<&Outcome>) -> anyhow::Result<()> {
    match outcome {
        Some(Outcome::Done(reply)) => tell_reply(rt, actor, reply),
        Some(Outcome::LateTag) => Ok(println!(rt; "actor {actor}: late tag")?),
        Some(Outcome::NoSpace { free, needed }) => {
            println!(rt; "actor {actor}: no space: {free} of {needed}")?;
            Ok(())
        }
        Some(_) => Ok(println!(rt; "actor {actor}: another end")?),
        None => Ok(println!(rt; "actor {actor}: no end")?),
    }
}

fn tell_reply<R: Print>(rt: &R, actor: u64, reply: &MapReply) -> anyhow::Result<()> {
    match reply {
        MapReply::Stored { etag, stamp } => {
            let digest = u128::from_be_bytes(*etag);
            let micros = stamp.micros;
            println!(rt; "actor {actor}: 201 {digest:032x} at {micros}")?;
        }
        MapReply::Shown { count, size, .. } => {
            println!(rt; "actor {actor}: 200 {count} of {size}")?;
        }
        MapReply::Same { .. } => println!(rt; "actor {actor}: 304")?,
        MapReply::Listed(rows) => {
            let count = rows.len();
            println!(rt; "actor {actor}: 200 rows={count}")?;
        }
        // No request of another kind tells counts.
        MapReply::Counted { .. } | MapReply::Refused(_) => {
            println!(rt; "actor {actor}: refused")?;
        }
    }
    Ok(())
}
