//! A known history, computed: the law speaks of it.
ghost use Rattle.std.specs.Prelude.{◌≡◌, ◌++◌, take, drop};
ghost use Rattle.realm_model.specs.Owns.{own_events, NoneBy};
ghost use Rattle.realm_model.specs.Histories.{state_of, account_of};
ghost use Rattle.realm_model.specs.KnownWords as words;
ghost use Rattle.realm_model.specs.StoppedWriterIsRepaired as stopped;
ghost use Rattle.task_words.specs.declared.job.JobOutcome.TheVariants.{Repaired};
ghost use Rattle.task_repair.specs.Repairs.{IsRepairOutcome};
ghost use Rattle.repair_law.specs.Repaired.{IsDue, ComeFrom, IsLeftAlone};

/// A writer stopped behind its change of a head, and at the deadline of its tag a check came. It ended with
/// one entry put right, and all that the law asks for holds.
pub fn a_known_repair_meets_the_premises()
    ensures whole { take 12 stopped.history ++ drop 12 stopped.history ≡ stopped.history }
    ensures none { NoneBy (words.actor 5) (take 12 stopped.history) }
    ensures due { IsDue (state_of words.usual (take 12 stopped.history)) 121000000 1 words.box (words.bucket 1 3 1) }
    ensures come { ComeFrom 121000000 (own_events stopped.history (words.actor 5)) }
    ensures alone { IsLeftAlone (words.actor 5) 1 words.box (words.bucket 1 3 1) (drop 12 stopped.history) }
    ensures ended { IsRepairOutcome (record { zone = 1; bucket = words.box }) (Repaired 1 0)
        (account_of words.usual stopped.history (words.actor 5)) (own_events stopped.history (words.actor 5)) }
{}
