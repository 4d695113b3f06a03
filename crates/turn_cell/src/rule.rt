//! The rule of a cell, and its kinds of step: the value is taken, given back with the next number or
//! unchanged, and a pass is split.
use crate::knowledge::Knowledge;
use crate::machine::Machine;
use atomic_table::{Play, Split, TableRule};
use std::marker::{Brand, PhantomData};
use std::snapshot::Snapshot;

/// One history, over the value that the cell was made with.
pub struct OneHistory<M> {
    of: PhantomData<M>,
}

impl<M: Machine> TableRule<M, Knowledge<M::Event, M::Fixed>, Snapshot<M>> for OneHistory<M> {
    ghost use Rattle.std.specs.Prelude.{◌^◌};
    ghost use Rattle.turn_cell.specs.Rule.{HasOneHistory, resting};

    ghost holds = { λ first s. HasOneHistory M.history M.fixed M.by M.lawful first.value s };

    ghost first = { λ first. resting 1 (2 ^ 62) (M.history first.value) (M.history first.value) (M.fixed first.value) };
}

/// The step that takes the value.
pub struct Take<M> {
    of: PhantomData<M>,
}

impl<M: Machine> Play<M, Knowledge<M::Event, M::Fixed>> for Take<M> {
    ghost use Rattle.turn_cell.specs.Plays.{Takes};

    ghost then = { Takes M.history M.fixed M.by M.lawful };
}

/// The step that gives the value back with the next number.
pub struct GiveNext<M> {
    of: PhantomData<M>,
}

impl<M: Machine> Play<M, Knowledge<M::Event, M::Fixed>> for GiveNext<M> {
    ghost use Rattle.turn_cell.specs.Plays.{GivesNext};

    ghost then = { GivesNext M.history };
}

/// The step that gives the value back unchanged.
pub struct GiveSame<M> {
    of: PhantomData<M>,
}

impl<M: Machine> Play<M, Knowledge<M::Event, M::Fixed>> for GiveSame<M> {
    ghost use Rattle.turn_cell.specs.Plays.{GivesSame};

    ghost then = { GivesSame };
}

/// How many numbers a split gives away. Each call picks it.
pub trait Share {
    ghost use Rattle.std.specs.Prelude.{ℕ};

    ghost share: { ℕ };
}

impl Share for Brand {
    ghost share = { 1 };
}

/// The step that splits a pass: the new one has the last numbers.
pub struct Cut<B> {
    of: PhantomData<B>,
}

impl<B: Share, E, F> Split<Knowledge<E, F>> for Cut<B> {
    ghost use Rattle.std.specs.Prelude.{◌-◌, ◌+◌};
    ghost use Rattle.turn_cell.specs.Rule.{resting};

    ghost left = { λ v. resting v.number (v.room - B.share) v.seen v.found v.fixed };

    ghost right = { λ v. resting (v.number + (v.room - B.share)) B.share v.seen v.found v.fixed };
}
