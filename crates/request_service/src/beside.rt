//! Stages with what their reply needs beside them.

use realm_door::{Answered, Next, Staged, Taken};
use std::alloc::{AllocError, Global};

/// Stages, and what the reply to their request needs beside them.
#[derive(Drop)]
pub struct Beside<T, X> {
    pub task: T,
    pub beside: X,
}

impl<T: Staged + Drop, X: Drop> Staged for Beside<T, X> {
    ghost use Rattle.std.specs.Prelude.{◌≡◌};

    type Command = (T::Command, X);

    type Outcome = T::Outcome;

    type Rest = T::Rest;

    ghost command = { λ t. (T.command t.task, t.beside) };

    ghost fits = { λ t settings d. T.fits t.task settings d };

    ghost means = { λ c outcome settings d. T.means c.0 outcome settings d };

    ghost is_over = { λ t. T.is_over t.task };

    ghost is_ready = { λ t. T.is_ready t.task };

    ghost wants = { λ t. T.wants t.task };

    ghost op = { λ t. T.op t.task };

    ghost is_taken = { λ t u rest. T.is_taken t.task u.task rest × (T.command u.task ≡ T.command t.task) × (u.beside ≡ t.beside) };

    ghost steps = { λ t u. T.steps t.task u.task × (T.command u.task ≡ T.command t.task) × (u.beside ≡ t.beside) };

    ghost piece = { λ t. T.piece t.task };

    ghost given = { λ t. T.given t.task };

    fn settle(&mut self) -> Next {
        self.task.settle()
    }

    fn end(&self) -> Option<&T::Outcome> {
        self.task.end()
    }

    fn piece(&self) -> &[u8] {
        self.task.piece()
    }

    fn split(&mut self, alloc: Global) -> Result<Taken<T::Rest>, AllocError> {
        self.task.split(alloc)
    }

    fn take(&mut self, alloc: Global, rest: T::Rest, answered: Answered) {
        self.task.take(alloc, rest, answered);
    }

    fn waits() {
        T::waits();
    }
}
