//! The texts of how actors ended.
ghost use Rattle.std.specs.Prelude.{◌≡◌, ◌++◌, ℕ, List, OnOk};
ghost use Rattle.script_player.specs.Plays.{IsEnded};
ghost use Rattle.script_words.specs.Replies.{outcome_text, reply_line, named_line};
ghost use Rattle.script_words.specs.declared.outcome.ActorOutcome.{ActorOutcome as OutcomeOf};
ghost use Rattle.rgw_script.specs.Stages.{BearsOut};

use crate::active::Active;
use script_words::{ActorName, push_named_line, push_reply_line};
use std::alloc::AllocError;

/// Adds the reply of an actor that ended, behind its name.
pub(crate) fn push_named_ending(
    out: &mut Vec<u8>,
    name: &ActorName,
    active: &Active,
) -> Result<(), AllocError>
    requires { IsEnded active.now.player }
    ensures { (outcome : OutcomeOf) × (shown : List ℕ) × BearsOut active.now outcome shown
        × OnOk result (out.new.items ≡ out.old.items ++ named_line name.now (outcome_text outcome shown)) }
{
    match active.player.outcome() {
        Some(outcome) => push_named_line(out, name, outcome, active.player.shown()),
        None => unreachable!(),
    }
}

/// Adds the reply of an actor that ended.
pub(crate) fn push_ending(out: &mut Vec<u8>, active: &Active) -> Result<(), AllocError>
    requires { IsEnded active.now.player }
    ensures { (outcome : OutcomeOf) × (shown : List ℕ) × BearsOut active.now outcome shown
        × OnOk result (out.new.items ≡ out.old.items ++ reply_line (outcome_text outcome shown)) }
{
    match active.player.outcome() {
        Some(outcome) => push_reply_line(out, outcome, active.player.shown()),
        None => unreachable!(),
    }
}
