//! The stages of a GET, and how the answer to a read brings it from one to the next.
ghost use Rattle.std.specs.Prelude.{◌≡◌, ◌≤◌, ◌+◌, ℕ, List, Some};
ghost use Rattle.task_get.specs.declared.stage.Stage.TheVariants.{Ended};
ghost use Rattle.task_words.specs.declared.outcome.Outcome.TheVariants.{Done};
ghost use Rattle.realm_model.specs.Suits.{Suits};
ghost use Rattle.realm_model.specs.declared.op.Op.TheVariants.{HeadRead, TailRead};
ghost use Rattle.task_get.specs.Pieces.{piece_bytes};
ghost use Rattle.task_get.specs.Stages.{slot_shown, tail_shown, after_row, after_live, after_head, gone_on, after_tail};

use crate::answer::{LiveReply, live_reply};
use crate::piece::Piece;
use crate::reading::Reading;
use object_words::{Bucket, HeadSeen, NewHead, SeenSlot, Why};
use realm_model::Reply;
use rgw_types::{Bytes, Manifest};
use swift_auth::Deed;
use task_words::{Asker, ByteRange, GetCommand, MapReply, Outcome, Refusal};

/// Where a GET stands.
#[derive(Drop)]
pub enum Stage {
    /// The row of the container comes next.
    Look,
    /// The head comes next.
    Open { container: u64 },
    /// A tail comes next.
    Tails(Reading),
    /// So many bytes were given in all.
    Ended { outcome: Outcome, given: u64 },
    /// A tail was gone after a reply was shown.
    Late { reading: Reading, outcome: Outcome },
}

/// The stage after an answer, and the bytes that it gives.
#[derive(Drop)]
pub struct Step {
    pub stage: Stage,
    pub piece: Option<Piece>,
}

/// What a read of a tail was answered.
#[derive(Drop)]
pub enum TailShown {
    Bytes(Bytes),
    Gone { clock: u64 },
}

/// The slot that an answer to a read of a head shows.
pub fn slot_in(reply: Reply) -> SeenSlot
    requires { (zone : ℕ) × (container : ℕ) × (name : List ℕ) × Suits (HeadRead zone container name) reply }
    ensures { result ≡ slot_shown reply }
{
    match reply {
        Reply::Head(seen, _) => {
            let HeadSeen { version: _, slot } = seen;
            slot
        }
        _ => unreachable!(),
    }
}

/// What an answer to a read of a tail shows.
pub fn tail_in(reply: Reply) -> TailShown
    requires { (zone : ℕ) × (write : ℕ) × (part : ℕ) × (start : ℕ) × (count : ℕ) × Suits (TailRead zone write part start count) reply }
    ensures { result ≡ tail_shown reply }
{
    match reply {
        Reply::Bytes(bytes) => TailShown::Bytes(bytes),
        Reply::No(Why::Gone { clock }) => TailShown::Gone { clock },
        _ => unreachable!(),
    }
}

/// After the row that was read, or that none is.
pub fn after_row(asker: &Asker, row: Option<Bucket>) -> Stage
    ensures { result ≡ after_row asker.now row }
{
    match asker.refusal(row.as_ref(), Deed::ReadThing) {
        Some(refusal) => {
            drop(row);
            ended(MapReply::Refused(refusal))
        }
        None => match row {
            Some(row) => {
                let container = row.id;
                drop(row);
                Stage::Open { container }
            }
            None => unreachable!(),
        },
    }
}

/// This is replied, and no bytes were given.
fn ended(reply: MapReply) -> Stage
    ensures { result ≡ Ended (Done reply) 0 }
{
    Stage::Ended {
        outcome: Outcome::Done(reply),
        given: 0,
    }
}

/// After the slot that the head shows.
pub fn after_head(get: &GetCommand, slot: SeenSlot, clock: u64) -> Step
    ensures stage { result.stage ≡ (after_head get.now slot clock).0 }
    ensures piece { piece_bytes result.piece ≡ (after_head get.now slot clock).1 }
{
    match slot {
        SeenSlot::Live(new, stamp) => {
            let NewHead {
                manifest,
                first,
                kind,
                meta,
                etag,
            } = new;
            let LiveReply { reply, range } = live_reply(
                get,
                manifest.size,
                kind,
                meta,
                etag,
                stamp,
            );
            match range {
                Some(range) if get.body && range.count > 0 => {
                    begin_range(reply, manifest, first, range, clock)
                }
                _ => Step {
                    stage: ended(reply),
                    piece: None,
                },
            }
        }
        SeenSlot::Nothing | SeenSlot::Mark(_) => Step {
            stage: ended(MapReply::Refused(Refusal::NoObject)),
            piece: None,
        },
    }
}

/// The bytes of the range that the head has are given; tails follow where it ends behind them.
fn begin_range(
    reply: MapReply,
    manifest: Manifest,
    first: Bytes,
    range: ByteRange,
    clock: u64,
) -> Step
    requires inside { range.start + range.count ≤ manifest.size }
    requires some { 1 ≤ range.count }
    ensures stage { result.stage ≡ (after_live reply manifest first (Some range) clock).0 }
    ensures piece { piece_bytes result.piece ≡ (after_live reply manifest first (Some range) clock).1 }
{
    let stripe = u64::from(manifest.stripe);
    let end = range.start + range.count;
    let piece = Piece::cut(
        first,
        range.start,
        end.min(stripe).saturating_sub(range.start),
    );
    let given = piece.len() as u64;
    let part = (range.start / stripe).max(1);
    let stage = if part * stripe < end {
        Stage::Tails(Reading {
            reply,
            manifest,
            range,
            part: part as u32,
            given,
            read_at: clock,
        })
    } else {
        Stage::Ended {
            outcome: Outcome::Done(reply),
            given,
        }
    };
    Step {
        stage,
        piece: Some(piece),
    }
}

/// After the bytes of a tail, or that it is gone.
pub fn after_tail(reading: Reading, tail: TailShown) -> Step
    ensures stage { result.stage ≡ (after_tail reading tail).0 }
    ensures piece { piece_bytes result.piece ≡ (after_tail reading tail).1 }
{
    match tail {
        TailShown::Bytes(bytes) => {
            let piece = Piece::cut(bytes, 0, reading.next_piece().count);
            Step {
                stage: gone_on(reading, piece.len() as u64),
                piece: Some(piece),
            }
        }
        TailShown::Gone { clock } => {
            let outcome = Outcome::LateRead {
                read_at: reading.read_at,
                clock,
            };
            Step {
                stage: Stage::Late { reading, outcome },
                piece: None,
            }
        }
    }
}

/// So many bytes of the tail were given: the next one comes next, if the range has bytes in it.
fn gone_on(reading: Reading, count: u64) -> Stage
    requires few { count ≤ reading.manifest.stripe }
    ensures { result ≡ gone_on reading count }
{
    let Reading {
        reply,
        manifest,
        range,
        part,
        given,
        read_at,
    } = reading;
    let part = part + 1;
    let given = given + count;
    if u64::from(part) * u64::from(manifest.stripe) < range.start + range.count {
        Stage::Tails(Reading {
            reply,
            manifest,
            range,
            part,
            given,
            read_at,
        })
    } else {
        Stage::Ended {
            outcome: Outcome::Done(reply),
            given,
        }
    }
}
