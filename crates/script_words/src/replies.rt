//! The texts of the replies to a script, at the end of a buffer.
ghost use Rattle.std.specs.Prelude.{◌≡◌, ◌++◌, ◌∷◌, [], OnOk, codes, decimal};
ghost use Rattle.call_words.specs.Texts.{refusal_in};
ghost use Rattle.task_words.specs.declared.reply.Refusal.TheVariants.{Denied};
ghost use Rattle.script_words.specs.Replies.{refusal_text, behind_blank, listed_text, keys_text, counts_text, map_text, request_text, container_refusal_in, container_reply_text, container_text, account_row_text, containers_text, account_rows_text, account_text, job_text, outcome_text, reply_line, named_line, count_line, bad_line};

use crate::{ActorName, ActorOutcome};
use list_words::{AccountRow, ListedRow};
use object_words::{ObjectName, etag_digits};
use std::alloc::AllocError;
use swift_auth::Rule;
use task_account::{AccountOutcome, AccountReply};
use task_container::{ContainerOutcome, ContainerRefusal, ContainerReply};
use task_words::{JobOutcome, MapReply, Outcome, Refusal};

fn push_number(out: &mut Vec<u8>, n: u64) -> Result<(), AllocError>
    ensures { OnOk result (out.new.items ≡ out.old.items ++ decimal n) }
{
    let mut digits = itoa::Buffer::new();
    out.extend_from_slice(digits.format(n).as_bytes())
}

/// Adds a text, and a number behind it.
fn push_counted(out: &mut Vec<u8>, text: &str, n: u64) -> Result<(), AllocError>
    ensures { OnOk result (out.new.items ≡ out.old.items ++ (text.now ++ decimal n)) }
{
    out.extend_from_slice(text.as_bytes())?;
    push_number(out, n)
}

/// Adds the code and the line of the refusal that so few frames were free.
fn push_no_space(out: &mut Vec<u8>, free: u32, needed: u32) -> Result<(), AllocError>
    ensures { OnOk result (out.new.items
        ≡ out.old.items ++ (codes "507 No space: " ++ decimal free ++ codes " of " ++ decimal needed)) }
{
    push_counted(out, "507 No space: ", u64::from(free))?;
    push_counted(out, " of ", u64::from(needed))
}

/// The code and the line of a refusal by a rule of the policy.
fn denial_text(rule: Rule) -> &'static str
    ensures { result.now ≡ refusal_text (refusal_in (Denied rule)) }
{
    match rule {
        Rule::Account => "403 Denied: account",
        Rule::Read => "403 Denied: read",
        Rule::Write => "403 Denied: write",
    }
}

/// The code and the line of a refusal by what is stored.
fn refusal_text(refusal: Refusal) -> &'static str
    ensures { result.now ≡ refusal_text (refusal_in refusal) }
{
    match refusal {
        Refusal::Unauthorized => "401 Unauthorized",
        Refusal::Denied(rule) => denial_text(rule),
        Refusal::NoContainer => "404 No such container",
        Refusal::NoObject => "404 No such object",
        Refusal::NotMet => "412 Precondition failed",
        Refusal::NoRange { .. } => "416 Range not satisfiable",
        Refusal::OtherEtag => "422 ETag mismatch",
    }
}

/// Adds the bytes of an object behind a blank, unless there are none.
fn push_shown(out: &mut Vec<u8>, shown: &[u8]) -> Result<(), AllocError>
    ensures { OnOk result (out.new.items ≡ out.old.items ++ behind_blank shown.now) }
{
    if shown.is_empty() {
        return Ok(());
    }
    out.extend_from_slice(b" ")?;
    out.extend_from_slice(shown)
}

/// Adds the keys of rows, each behind a blank.
fn push_keys(out: &mut Vec<u8>, rows: &[ListedRow]) -> Result<(), AllocError>
    ensures { OnOk result (out.new.items ≡ out.old.items ++ keys_text rows.now) }
{
    for row in rows {
        out.push(b' ')?;
        out.extend_from_slice(row.key().as_bytes())?;
    }
    Ok(())
}

/// Adds the keys of a listing; `204` where it has no row.
fn push_listed(out: &mut Vec<u8>, rows: &[ListedRow]) -> Result<(), AllocError>
    ensures { OnOk result (out.new.items ≡ out.old.items ++ listed_text rows.now) }
{
    if rows.is_empty() {
        return out.extend_from_slice(b"204");
    }
    out.extend_from_slice(b"200")?;
    push_keys(out, rows)
}

/// Adds how many objects there are, and how many bytes they have.
fn push_counts(out: &mut Vec<u8>, objects: u64, bytes: u64) -> Result<(), AllocError>
    ensures { OnOk result (out.new.items ≡ out.old.items ++ counts_text objects bytes) }
{
    push_counted(out, "200 objects=", objects)?;
    push_counted(out, " bytes=", bytes)
}

/// Adds what is replied of an object or a container, with the bytes that are shown.
fn push_map_reply(out: &mut Vec<u8>, reply: &MapReply, shown: &[u8]) -> Result<(), AllocError>
    ensures { OnOk result (out.new.items ≡ out.old.items ++ map_text reply.now shown.now) }
{
    match reply {
        MapReply::Stored { etag, .. } => {
            out.extend_from_slice(b"201 ")?;
            out.extend_from_slice(etag_digits(etag).as_slice())
        }
        MapReply::Shown { size, .. } => {
            push_counted(out, "200 ", *size)?;
            push_shown(out, shown)
        }
        MapReply::Same { etag, .. } => {
            out.extend_from_slice(b"304 ")?;
            out.extend_from_slice(etag_digits(etag).as_slice())
        }
        MapReply::Counted { objects, bytes, .. } => push_counts(out, *objects, *bytes),
        MapReply::Listed(rows) => push_listed(out, rows.as_slice()),
        MapReply::Refused(refusal) => out.extend_from_slice(refusal_text(*refusal).as_bytes()),
    }
}

/// Adds what is replied where a request ended so, with the bytes that it shows: `201 {etag}`,
/// `200 {size} {bytes}`, `200 objects={n} bytes={n}`, `200 {key} {key}` or `204` for a listing,
/// `late {read_at} {clock}`, or the code and the line of the Swift API's refusal.
pub fn push_request_outcome(
    out: &mut Vec<u8>,
    outcome: &Outcome,
    shown: &[u8],
) -> Result<(), AllocError>
    ensures { OnOk result (out.new.items ≡ out.old.items ++ request_text outcome.now shown.now) }
{
    match outcome {
        Outcome::Done(reply) => push_map_reply(out, reply, shown),
        Outcome::BodyFailed => out.extend_from_slice(b"400 Body failed"),
        Outcome::Busy { id } => push_counted(out, "503 Busy: ", *id),
        Outcome::MovedOften => out.extend_from_slice(b"503 Moved often"),
        Outcome::RacedOften => out.extend_from_slice(b"503 Raced often"),
        Outcome::LateTag => out.extend_from_slice(b"503 Late: tag"),
        Outcome::LateRead { read_at, clock } => {
            push_counted(out, "late ", *read_at)?;
            push_counted(out, " ", *clock)
        }
        Outcome::NoSpace { free, needed } => push_no_space(out, *free, *needed),
    }
}

/// Adds the name of an object behind a text.
fn push_name(out: &mut Vec<u8>, text: &str, name: &ObjectName) -> Result<(), AllocError>
    ensures { OnOk result (out.new.items ≡ out.old.items ++ (text.now ++ name.now)) }
{
    out.extend_from_slice(text.as_bytes())?;
    out.extend_from_slice(name.as_text().as_bytes())
}

/// Adds the code and the line of a refusal of a request for a container.
fn push_container_refusal(out: &mut Vec<u8>, refusal: &ContainerRefusal) -> Result<(), AllocError>
    ensures { OnOk result (out.new.items ≡ out.old.items ++ refusal_text (container_refusal_in refusal.now)) }
{
    match refusal {
        ContainerRefusal::ByRow(refusal) => out.extend_from_slice(refusal_text(
            *refusal,
        ).as_bytes()),
        ContainerRefusal::NotYours => out.extend_from_slice(b"409 Not yours"),
        ContainerRefusal::NotEmpty { name } => push_name(out, "409 Not empty: ", name),
        ContainerRefusal::Unsettled { name } => push_name(out, "409 Unsettled: ", name),
    }
}

/// Adds what is replied of a container.
fn push_container_reply(out: &mut Vec<u8>, reply: &ContainerReply) -> Result<(), AllocError>
    ensures { OnOk result (out.new.items ≡ out.old.items ++ container_reply_text reply.now) }
{
    match reply {
        ContainerReply::Counted { objects, bytes, .. } => push_counts(out, *objects, *bytes),
        ContainerReply::Made => out.extend_from_slice(b"201"),
        ContainerReply::Accepted => out.extend_from_slice(b"202"),
        ContainerReply::Changed | ContainerReply::Removed => out.extend_from_slice(b"204"),
        ContainerReply::Refused(refusal) => push_container_refusal(out, refusal),
    }
}

/// Adds what is replied where a request for a container ended so: `200 objects={n} bytes={n}`, `201`, `202`,
/// `204`, or the code and the line of the Swift API's refusal.
pub fn push_container_outcome(
    out: &mut Vec<u8>,
    outcome: &ContainerOutcome,
) -> Result<(), AllocError>
    ensures { OnOk result (out.new.items ≡ out.old.items ++ container_text outcome.now) }
{
    match outcome {
        ContainerOutcome::Done(reply) => push_container_reply(out, reply),
        ContainerOutcome::Busy { id } => push_counted(out, "503 Busy: ", *id),
        ContainerOutcome::MovedOften => out.extend_from_slice(b"503 Moved often"),
        ContainerOutcome::RacedOften => out.extend_from_slice(b"503 Raced often"),
    }
}

/// Adds a container of an account behind a blank: its name, how many objects it has, and their bytes.
fn push_account_row(out: &mut Vec<u8>, row: &AccountRow) -> Result<(), AllocError>
    ensures { OnOk result (out.new.items ≡ out.old.items ++ account_row_text row.now) }
{
    out.push(b' ')?;
    out.extend_from_slice(row.name.as_bytes())?;
    push_counted(out, "=", row.count)?;
    push_counted(out, "/", row.bytes)
}

/// Adds containers of an account, each behind a blank.
fn push_containers(out: &mut Vec<u8>, rows: &[AccountRow]) -> Result<(), AllocError>
    ensures { OnOk result (out.new.items ≡ out.old.items ++ containers_text rows.now) }
{
    for row in rows {
        push_account_row(out, row)?;
    }
    Ok(())
}

/// Adds the containers of an account; `204` where it has none.
fn push_account_rows(out: &mut Vec<u8>, rows: &[AccountRow]) -> Result<(), AllocError>
    ensures { OnOk result (out.new.items ≡ out.old.items ++ account_rows_text rows.now) }
{
    if rows.is_empty() {
        return out.extend_from_slice(b"204");
    }
    out.extend_from_slice(b"200")?;
    push_containers(out, rows)
}

/// Adds what is replied where a request for an account ended so: `200 {name}={objects}/{bytes} ..`, `204` where
/// it has no container, or the code and the line of the Swift API's refusal.
pub fn push_account_outcome(out: &mut Vec<u8>, outcome: &AccountOutcome) -> Result<(), AllocError>
    ensures { OnOk result (out.new.items ≡ out.old.items ++ account_text outcome.now) }
{
    match outcome {
        AccountOutcome::Done(AccountReply::Listed(rows)) => push_account_rows(out, rows.as_slice()),
        AccountOutcome::Done(AccountReply::Counted { objects, bytes, .. }) => {
            push_counts(out, *objects, *bytes)
        }
        AccountOutcome::MovedOften => out.extend_from_slice(b"503 Moved often"),
    }
}

/// Adds what is replied where a job ended so: `200 repaired={n} left={n}`, or the code and the line of the
/// Swift API's refusal.
pub fn push_job_outcome(out: &mut Vec<u8>, outcome: &JobOutcome) -> Result<(), AllocError>
    ensures { OnOk result (out.new.items ≡ out.old.items ++ job_text outcome.now) }
{
    match outcome {
        JobOutcome::Repaired { applied, left } => {
            push_counted(out, "200 repaired=", *applied)?;
            push_counted(out, " left=", *left)
        }
        JobOutcome::NoBucket => {
            let text = refusal_text(Refusal::NoContainer);
            out.extend_from_slice(text.as_bytes())
        }
    }
}

/// Adds what is replied where an actor ended so, with the bytes that it shows.
pub fn push_outcome(
    out: &mut Vec<u8>,
    outcome: ActorOutcome<'_>,
    shown: &[u8],
) -> Result<(), AllocError>
    ensures { OnOk result (out.new.items ≡ out.old.items ++ outcome_text outcome.entry shown.now) }
{
    match outcome {
        ActorOutcome::Request(outcome) => push_request_outcome(out, outcome, shown),
        ActorOutcome::Container(outcome) => push_container_outcome(out, outcome),
        ActorOutcome::Account(outcome) => push_account_outcome(out, outcome),
        ActorOutcome::Job(outcome) => push_job_outcome(out, outcome),
    }
}

/// Adds the line of a reply: how an actor ended, with the bytes that it shows.
pub fn push_reply_line(
    out: &mut Vec<u8>,
    outcome: ActorOutcome<'_>,
    shown: &[u8],
) -> Result<(), AllocError>
    ensures { OnOk result (out.new.items
        ≡ out.old.items ++ reply_line (outcome_text outcome.entry shown.now)) }
{
    push_outcome(out, outcome, shown)?;
    out.extend_from_slice(b"\n")
}

/// Adds the name of an actor, and a blank.
fn push_actor(out: &mut Vec<u8>, actor: &ActorName) -> Result<(), AllocError>
    ensures { OnOk result (out.new.items ≡ out.old.items ++ (actor.now ++ 32 ∷ [])) }
{
    out.extend_from_slice(actor.as_text().as_bytes())?;
    out.extend_from_slice(b" ")
}

/// Adds the line of a reply behind the name of its actor.
pub fn push_named_line(
    out: &mut Vec<u8>,
    actor: &ActorName,
    outcome: ActorOutcome<'_>,
    shown: &[u8],
) -> Result<(), AllocError>
    ensures { OnOk result (out.new.items
        ≡ out.old.items ++ named_line actor.now (outcome_text outcome.entry shown.now)) }
{
    push_actor(out, actor)?;
    push_reply_line(out, outcome, shown)
}

/// Adds the line that says how many events an actor made.
pub fn push_count_line(out: &mut Vec<u8>, actor: &ActorName, events: u64) -> Result<(), AllocError>
    ensures { OnOk result (out.new.items ≡ out.old.items ++ count_line actor.now events) }
{
    push_actor(out, actor)?;
    push_number(out, events)?;
    out.extend_from_slice(b"\n")
}

/// Adds the line that says which line of a script is bad; the first has the number 1.
pub fn push_bad_line(out: &mut Vec<u8>, number: u64) -> Result<(), AllocError>
    ensures { OnOk result (out.new.items ≡ out.old.items ++ bad_line number) }
{
    push_counted(out, "bad line ", number)?;
    out.extend_from_slice(b"\n")
}
