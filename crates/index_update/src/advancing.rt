// Where an answer brings an update.
ghost use Rattle.std.specs.Prelude.{◌≡◌, option_copied};
ghost use Rattle.index_update.specs.Stages.{tried_after, place_of, look_again, after_late, by_lateness, by_refusal, by_change, by_cancel, look_for_shard, row_back, change_of, by_move, by_completion, shard_for, shard_now};
ghost use Rattle.realm_model.specs.Shown.{row_shown};
ghost use Rattle.index_update.specs.declared.stage.Stage.TheVariants.{Completing, Ended};
ghost use Rattle.index_update.specs.declared.stage.After.TheVariants.{End};
ghost use Rattle.index_update.specs.declared.stage.Updated.TheVariants as ends;

use crate::head_change::{HeadChange, change_back};
use crate::stage::{After, Change, Stage, Target, Tried, Unfinished, Updated};
use object_words::{Bucket, Changed, EntryRow, Guard, ObjectName, ShardKey, Why, shard_of};
use realm_door::Answered;
use realm_model::{Op, Reply};
use std::mem::replace;
use swift_auth::Deed;
use task_words::{MOST_EXPIRED, MOST_MOVED, Refusal};

/// With one answer more.
pub(crate) fn tried_after(tried: Tried, reply: &Reply) -> Tried
    ensures { result ≡ tried_after tried reply.now }
{
    let Tried { moved, expired } = tried;
    match reply {
        Reply::No(Why::Moved { .. } | Why::Closed) => Tried {
            moved: moved.saturating_add(1),
            expired,
        },
        Reply::No(Why::Expired { .. }) => Tried {
            moved,
            expired: expired.saturating_add(1),
        },
        _ => tried,
    }
}

impl Stage {
    ghost use Rattle.std.specs.Prelude.{◌≡◌, ℕ};
    ghost use Rattle.rgw_types.specs.declared.pool_key.Key.{Key};
    ghost use Rattle.index_update.specs.Stages.{by_place, by_tag, look_again, by_cancel, stood_on};
    ghost use Rattle.index_update.specs.declared.head_change.HeadChange.{HeadChange as HeadChangeOf};
    ghost use Rattle.index_update.specs.declared.stage.After.{After as AfterOf};
    ghost use Rattle.index_update.specs.declared.stage.Change.{Change as ChangeOf};
    ghost use Rattle.index_update.specs.declared.stage.Stage.TheVariants.{Looking, Preparing, Announcing, Writing, Cancelling, Completing, LookingForShard};
    ghost use Rattle.object_words.specs.declared.entry.Guard.{Guard as GuardOf};

    /// A stage that stood goes on by an answer.
    pub(crate) fn stand_on(&mut self, target: &Target, tried: Tried, answered: Answered)
        ensures { self.new ≡ stood_on target.now tried self.old answered.reply }
    {
        match self {
            Stage::Looking { .. } => {
                let place = place_shown(target, answered);
                self.placed(place);
            }
            Stage::Preparing { .. } => self.prepared(tried, answered),
            Stage::Announcing { .. } => {
                drop(answered);
                self.announced();
            }
            Stage::Cancelling { .. } => {
                drop(answered);
                self.cancelled(tried);
            }
            Stage::LookingForShard { made } => {
                let key = shard_looked(target, made.home, answered);
                self.shard_found(key);
            }
            _ => drop(answered),
        }
    }

    /// The row was read again.
    fn placed(&mut self, place: Result<ShardKey, Refusal>)
        ensures { (change : HeadChangeOf) → self.old ≡ Looking change → self.new ≡ by_place change place }
    {
        match place {
            Ok(key) => self.prepare(key),
            Err(refusal) => self.stand(Stage::Ended(Updated::Refused(refusal))),
        }
    }

    fn prepare(&mut self, key: ShardKey)
        ensures { (change : HeadChangeOf) → self.old ≡ Looking change → self.new ≡ Preparing key change }
    {
        match replace(self, Stage::Ended(Updated::MovedOften)) {
            Stage::Looking { change } => self.stand(Stage::Preparing { key, change }),
            other => drop(other),
        }
    }

    /// A tag was given, or the shard refused it.
    fn prepared(&mut self, tried: Tried, answered: Answered)
        ensures { (key : Key) (change : HeadChangeOf) → self.old ≡ Preparing key change → self.new ≡ by_tag tried key change answered.reply }
    {
        match &answered.reply {
            Reply::Prepared(guard) => {
                let guard = *guard;
                drop(answered);
                self.announce(guard);
            }
            Reply::No(Why::Held { id }) => {
                let id = *id;
                drop(answered);
                self.stand(Stage::Ended(Updated::Busy { id }));
            }
            _ => {
                drop(answered);
                self.look_again(tried);
            }
        }
    }

    fn announce(&mut self, guard: Guard)
        ensures { (key : Key) (change : HeadChangeOf) → self.old ≡ Preparing key change → self.new ≡ Announcing key guard change }
    {
        match replace(self, Stage::Ended(Updated::MovedOften)) {
            Stage::Preparing { key, change } => self.stand(Stage::Announcing {
                key,
                guard,
                change,
            }),
            other => drop(other),
        }
    }

    fn look_again(&mut self, tried: Tried)
        ensures { (key : Key) (change : HeadChangeOf) → self.old ≡ Preparing key change → self.new ≡ look_again tried change }
    {
        match replace(self, Stage::Ended(Updated::MovedOften)) {
            Stage::Preparing { change, .. } => self.stand(look_again(tried, change)),
            other => drop(other),
        }
    }

    /// The shard was announced.
    fn announced(&mut self)
        ensures { (key : Key) (guard : GuardOf) (change : HeadChangeOf) → self.old ≡ Announcing key guard change → self.new ≡ Writing key guard change }
    {
        match replace(self, Stage::Ended(Updated::MovedOften)) {
            Stage::Announcing { key, guard, change } => {
                self.stand(Stage::Writing { key, guard, change });
            }
            other => drop(other),
        }
    }

    /// The tag was cancelled, or is left to its deadline.
    fn cancelled(&mut self, tried: Tried)
        ensures { (key : Key) (tag : ℕ) (after : AfterOf) → self.old ≡ Cancelling key tag after → self.new ≡ by_cancel tried after }
    {
        match replace(self, Stage::Ended(Updated::MovedOften)) {
            Stage::Cancelling { after, .. } => self.stand(by_cancel(tried, after)),
            other => drop(other),
        }
    }

    /// The row was read again, for the shard in which the change is completed.
    fn shard_found(&mut self, key: ShardKey)
        ensures { (made : ChangeOf) → self.old ≡ LookingForShard made → self.new ≡ Completing key made }
    {
        match replace(self, Stage::Ended(Updated::MovedOften)) {
            Stage::LookingForShard { made } => self.stand(Stage::Completing { key, made }),
            other => drop(other),
        }
    }

    /// Stands there from now on.
    pub(crate) fn stand(&mut self, next: Stage)
        ensures { self.new ≡ next }
    {
        *self = next;
    }
}

/// The shard for the name, or why the row refuses the change, by the answer to a read of the row.
pub fn place_shown(target: &Target, answered: Answered) -> Result<ShardKey, Refusal>
    ensures { result ≡ place_of target.now (row_shown answered.reply) }
{
    let Answered { reply, back, .. } = answered;
    drop(back);
    let row = reply.into_row();
    let place = place_of(target, row.as_ref());
    drop(row);
    place
}

/// The row was read again, for the shard in which the change is completed.
fn shard_looked(target: &Target, home: ShardKey, answered: Answered) -> ShardKey
    ensures { result ≡ shard_now home target.now.name (row_shown answered.reply) }
{
    let Answered { reply, back, .. } = answered;
    drop(back);
    let row = reply.into_row();
    let key = shard_now(home, &target.name, row.as_ref());
    drop(row);
    key
}

/// The head was changed, or not.
pub(crate) fn written(tried: Tried, key: ShardKey, guard: Guard, answered: Answered) -> Stage
    ensures { result ≡ by_change tried key guard answered.reply answered.back }
{
    let Answered { reply, back, .. } = answered;
    by_change(tried, key, guard, reply, back)
}

/// The change was completed, or not.
pub(crate) fn completed(tried: Tried, unfinished: Unfinished, answered: Answered) -> Stage
    ensures { result ≡ by_completion tried unfinished answered.reply answered.back }
{
    let Answered { reply, back, .. } = answered;
    by_completion(tried, unfinished, reply, back)
}

/// The shard that a row has for a name.
fn shard_for(row: &Bucket, name: &ObjectName) -> ShardKey
    ensures { result ≡ shard_for row.now name.now }
{
    ShardKey {
        container: row.id,
        instance: row.instance,
        shard: shard_of(name.as_text().as_bytes(), row.shards),
    }
}

/// The shard for the name, or why the row refuses the change.
fn place_of(target: &Target, row: Option<&Bucket>) -> Result<ShardKey, Refusal>
    ensures { result ≡ place_of target.now (option_copied row.entry) }
{
    match target.asker.refusal(row, Deed::ChangeThing) {
        Some(refusal) => Err(refusal),
        None => match row {
            Some(row) => Ok(shard_for(row, &target.name)),
            None => Err(Refusal::NoContainer),
        },
    }
}

/// The row is read again, unless that came too often.
fn look_again(tried: Tried, change: HeadChange) -> Stage
    ensures { result ≡ look_again tried change }
{
    if tried.moved < MOST_MOVED {
        Stage::Looking { change }
    } else {
        drop(change);
        Stage::Ended(Updated::MovedOften)
    }
}

/// The head was changed, or not.
fn by_change(tried: Tried, key: ShardKey, guard: Guard, reply: Reply, back: Option<Op>) -> Stage
    ensures { result ≡ by_change tried key guard reply back }
{
    match reply {
        Reply::Changed(made) => changed(key, guard.tag, made, back),
        Reply::No(why) => Stage::Cancelling {
            key,
            tag: guard.tag,
            after: by_refusal(tried, why, back),
        },
        other => {
            drop(other);
            Stage::Cancelling {
                key,
                tag: guard.tag,
                after: ended_by(Updated::NotMet, back),
            }
        }
    }
}

/// The head was changed.
fn changed(key: ShardKey, tag: u64, made: Changed, back: Option<Op>) -> Stage
    ensures { result ≡ Completing key (record { home = key; tag = tag; version = made.version; row = made.row; stamp = made.stamp; old = made.old }) }
{
    drop(back);
    let Changed {
        version,
        stamp,
        row,
        old,
    } = made;
    Stage::Completing {
        key,
        made: Change {
            home: key,
            tag,
            version,
            row,
            stamp,
            old,
        },
    }
}

/// What comes after the cancel of a tag under which the head was not changed.
fn by_refusal(tried: Tried, why: Why, back: Option<Op>) -> After
    ensures { result ≡ by_refusal tried why back }
{
    match why {
        Why::Expired { .. } => by_lateness(tried, change_back(back)),
        Why::NoSpace { free, needed } => ended_by(Updated::NoSpace { free, needed }, back),
        _ => ended_by(Updated::NotMet, back),
    }
}

/// The task ends so, and what came back is let go.
fn ended_by(end: Updated, back: Option<Op>) -> After
    ensures { result ≡ End end }
{
    drop(back);
    After::End(end)
}

/// The tag's life was over.
fn by_lateness(tried: Tried, change: Option<HeadChange>) -> After
    ensures { result ≡ by_lateness tried change }
{
    match change {
        Some(change) => after_late(tried, change),
        None => After::End(Updated::NotMet),
    }
}

/// The tag's life was over: the change is tried again, unless that came too often.
fn after_late(tried: Tried, change: HeadChange) -> After
    ensures { result ≡ after_late tried change }
{
    if tried.expired < MOST_EXPIRED {
        After::Again(change)
    } else {
        drop(change);
        After::End(Updated::LateTag)
    }
}

/// The tag was cancelled, or is left to its deadline.
fn by_cancel(tried: Tried, after: After) -> Stage
    ensures { result ≡ by_cancel tried after }
{
    match after {
        After::Again(change) => look_again(tried, change),
        After::End(end) => Stage::Ended(end),
    }
}

/// The change was completed, or not. It stands in either case.
fn by_completion(tried: Tried, unfinished: Unfinished, reply: Reply, back: Option<Op>) -> Stage
    ensures { result ≡ by_completion tried unfinished reply back }
{
    match &reply {
        Reply::No(Why::Moved { .. }) => {
            drop(reply);
            by_move(tried, unfinished, row_back(back))
        }
        _ => {
            drop(reply);
            stood(unfinished, back)
        }
    }
}

/// The change stands, and what came back is let go.
fn stood(unfinished: Unfinished, back: Option<Op>) -> Stage
    ensures { result ≡ Ended (ends.Changed unfinished.stamp unfinished.old) }
{
    drop(back);
    stored(unfinished)
}

/// The row, where a completion comes back.
fn row_back(back: Option<Op>) -> Option<EntryRow>
    ensures { result ≡ row_back back }
{
    match back {
        Some(Op::Complete { name, row, .. }) => {
            drop(name);
            Some(row)
        }
        other => {
            drop(other);
            None
        }
    }
}

/// The shard moved.
fn by_move(tried: Tried, unfinished: Unfinished, row: Option<EntryRow>) -> Stage
    ensures { result ≡ by_move tried unfinished row }
{
    match row {
        Some(row) => look_for_shard(tried, change_of(unfinished, row)),
        None => stored(unfinished),
    }
}

/// The change, with the row that is to be told.
fn change_of(unfinished: Unfinished, row: EntryRow) -> Change
    ensures { result ≡ change_of unfinished row }
{
    let Unfinished {
        home,
        tag,
        version,
        stamp,
        old,
    } = unfinished;
    Change {
        home,
        tag,
        version,
        row,
        stamp,
        old,
    }
}

/// The change stands.
fn stored(unfinished: Unfinished) -> Stage
    ensures { result ≡ Ended (ends.Changed unfinished.stamp unfinished.old) }
{
    let Unfinished { stamp, old, .. } = unfinished;
    Stage::Ended(Updated::Changed { stamp, old })
}

/// The change is completed elsewhere, unless that came too often.
fn look_for_shard(tried: Tried, made: Change) -> Stage
    ensures { result ≡ look_for_shard tried made }
{
    if tried.moved < MOST_MOVED {
        Stage::LookingForShard { made }
    } else {
        let Change { stamp, old, .. } = made;
        Stage::Ended(Updated::Changed { stamp, old })
    }
}

/// The shard that the row has now, where it is still that of the container; else the tag's own.
fn shard_now(home: ShardKey, name: &ObjectName, row: Option<&Bucket>) -> ShardKey
    ensures { result ≡ shard_now home name.now (option_copied row.entry) }
{
    match row {
        Some(row) if row.id == home.container => shard_for(row, name),
        _ => home,
    }
}
