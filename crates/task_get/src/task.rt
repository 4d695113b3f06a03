ghost use Rattle.std.specs.Prelude.{◌≡◌, true, false, option_copied};
ghost use Rattle.realm_model.specs.Suits.{Suits};
ghost use Rattle.realm_door.specs.Turns.{FitsAtFirst};
ghost use Rattle.task_get.specs.Pieces.{piece_bytes};
ghost use Rattle.task_get.specs.Stages.{IsOver, IsOpen, ended_in, op_of, step_of};
ghost use Rattle.task_get.specs.declared.stage.Stage.TheVariants.{Look};
ghost use Rattle.task_get.specs.Tasks.{request_of, stage_of, shown_in, shown_of, Fits};

use crate::piece;
use crate::piece::Piece;
use crate::request::GetRequest;
use crate::stage::{Stage, Step, after_head, after_row, after_tail, slot_in, tail_in};
use realm_door::{Answered, Next, Staged, Taken};
use realm_model::{Op, Reply};
use rgw_types::PartNumber;
use std::alloc::{AllocError, Global};
use std::mem::replace;
use task_words::{MapReply, Outcome};

/// A GET or a HEAD of an object: the row is read, then the head, and then, where bytes are wanted, the
/// tails that have some of them.
#[derive(Drop)]
pub struct GetTask {
    request: GetRequest,
    stage: Stage,
    /// What the last answer brought.
    piece: Option<Piece>,
}

impl GetTask {
    /// A task that made no event.
    pub fn new(request: GetRequest) -> GetTask
        ensures request { request_of result ≡ request }
        ensures fits { FitsAtFirst request.zone (Fits result) }
        ensures looks { stage_of result ≡ Look }
    {
        GetTask {
            request,
            stage: Stage::Look,
            piece: None,
        }
    }

    /// What is asked.
    pub fn request(&self) -> &GetRequest
        ensures { result.now ≡ request_of self.now }
    {
        &self.request
    }

    /// The reply whose bytes the pieces are, once it is known.
    pub fn shown(&self) -> Option<&MapReply>
        ensures { option_copied result ≡ shown_of self.now }
    {
        match &self.stage {
            Stage::Tails(reading) | Stage::Late { reading, .. } => Some(&reading.reply),
            Stage::Ended { outcome, .. } => shown_in(outcome),
            Stage::Look | Stage::Open { .. } => None,
        }
    }

    /// The outcome, once it is there.
    pub fn ended(&self) -> Option<&Outcome>
        ensures { option_copied result ≡ ended_in (stage_of self.now) }
    {
        match &self.stage {
            Stage::Ended { outcome, .. } | Stage::Late { outcome, .. } => Some(outcome),
            _ => None,
        }
    }

    /// Goes on by the answer to the operation that came next, at this clock.
    fn go_on(&mut self, reply: Reply, clock: u64)
        requires suits { Suits (op_of self.old.request self.old.stage) reply }
        ensures request { self.new.request ≡ self.old.request }
        ensures stage { self.new.stage ≡ (step_of self.old.request self.old.stage reply clock).0 }
        ensures piece { piece_bytes self.new.piece ≡ (step_of self.old.request self.old.stage reply clock).1 }
    {
        let stage = replace(&mut self.stage, Stage::Look);
        let Step { stage, piece } = next_step(&self.request, stage, reply, clock);
        drop(replace(&mut self.stage, stage));
        drop(replace(&mut self.piece, piece));
    }
}

/// The reply of an outcome, where it shows bytes.
fn shown_in(outcome: &Outcome) -> Option<&MapReply>
    ensures { option_copied result ≡ shown_in outcome.now }
{
    match outcome {
        Outcome::Done(reply) => match reply {
            MapReply::Shown { .. } => Some(reply),
            _ => None,
        },
        _ => None,
    }
}

/// The stage after an answer, and what it gives.
fn next_step(request: &GetRequest, stage: Stage, reply: Reply, clock: u64) -> Step
    requires suits { Suits (op_of request.now stage) reply }
    ensures stage { result.stage ≡ (step_of request.now stage reply clock).0 }
    ensures piece { piece_bytes result.piece ≡ (step_of request.now stage reply clock).1 }
{
    match stage {
        Stage::Look => Step {
            stage: after_row(&request.asker, reply.into_row()),
            piece: None,
        },
        Stage::Open { .. } => after_head(&request.get, slot_in(reply), clock),
        Stage::Tails(reading) => after_tail(reading, tail_in(reply)),
        over => {
            drop(reply);
            Step {
                stage: over,
                piece: None,
            }
        }
    }
}

fn is_over(stage: &Stage) -> bool
    ensures over { result ≡ true → IsOver stage.now }
    ensures open { result ≡ false → IsOpen stage.now }
{
    matches!(stage, Stage::Ended { .. } | Stage::Late { .. })
}

impl Staged for GetTask {
    ghost use Rattle.std.specs.Prelude.{◌≡◌};
    ghost use Rattle.task_get.specs.Stages.{IsOver, IsOpen, op_of};
    ghost use Rattle.task_get.specs.Tasks.{request_of, stage_of, bytes_of, given_of, Fits, Steps, means};

    type Command = GetRequest;

    type Outcome = Outcome;

    type Rest = ();

    ghost command = { request_of };

    ghost fits = { Fits };

    ghost means = { means };

    ghost is_over = { λ t. IsOver (stage_of t) };

    ghost is_ready = { λ t. IsOpen (stage_of t) };

    ghost op = { λ t. op_of (request_of t) (stage_of t) };

    ghost is_taken = { λ t u rest. (u ≡ t) × IsOpen (stage_of t) };

    ghost steps = { Steps };

    ghost piece = { bytes_of };

    ghost given = { given_of };

    #[tactic(auto, using(crate::proofs::Turning::not_over))]
    fn settle(&mut self) -> Next {
        if is_over(&self.stage) {
            Next::Done
        } else {
            Next::Event
        }
    }

    fn end(&self) -> Option<&Outcome> {
        self.ended()
    }

    fn piece(&self) -> &[u8] {
        piece::bytes_of(self.piece.as_ref())
    }

    fn split(&mut self, _alloc: Global) -> Result<Taken<()>, AllocError> {
        let zone = self.request.zone;
        let op = match &self.stage {
            Stage::Open { container } => Op::HeadRead {
                zone,
                container: *container,
                name: self.request.get.name.clone()?,
            },
            Stage::Tails(reading) => {
                let piece = reading.next_piece();
                Op::TailRead {
                    zone,
                    write: reading.manifest.write,
                    part: PartNumber::new(piece.part),
                    start: piece.start,
                    count: piece.count,
                }
            }
            _ => Op::BucketRead {
                zone,
                name: self.request.get.container.clone()?,
            },
        };
        Ok(Taken { op, rest: () })
    }

    fn take(&mut self, _alloc: Global, _rest: (), answered: Answered) {
        drop(answered.back);
        self.go_on(answered.reply, answered.clock);
    }

    fn waits() {}
}
