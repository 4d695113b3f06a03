//! PUTs of objects.
use crate::ends::tell_end;
use crate::play::Play;
use crate::words::{always, asker, bucket_name, object_name};
use realm_door::{Stepping, Task, TaskTurn};
use realm_model::Settings;
use rgw_types::Pairs;
use std::alloc::Global;
use task_put::PutTask;
use task_words::{BodyEnd, PutCommand};

// No PUT here takes more turns.
const TURNS: u32 = 64;

/// A PUT of an object of this name.
pub fn put_of(alloc: Global, name: &str) -> anyhow::Result<PutCommand> {
    Ok(PutCommand {
        container: bucket_name(alloc)?,
        name: object_name(alloc, name)?,
        kind: None,
        meta: Pairs::new(alloc),
        etag: None,
        when: always(),
    })
}

/// A PUT by the actor of this number, and the bytes that it was not yet sent.
#[derive(Drop)]
pub struct Upload {
    task: Stepping<PutTask>,
    actor: u64,
    left: &'static [u8],
}

impl Upload {
    /// A PUT that made no event, of these bytes under this name.
    pub fn new(
        alloc: Global,
        settings: &Settings,
        actor: u64,
        name: &str,
        bytes: &'static [u8],
    ) -> anyhow::Result<Upload> {
        Ok(Upload {
            task: Stepping::new(PutTask::new(
                alloc,
                settings,
                1,
                asker(alloc)?,
                put_of(alloc, name)?,
            )?),
            actor,
            left: bytes,
        })
    }

    /// Goes on by so many events at a moment, or up to the end if that comes first.
    pub fn step<R: Print>(
        &mut self,
        rt: &R,
        alloc: Global,
        play: &mut Play,
        moment: u64,
        events: u32,
    ) -> anyhow::Result<()> {
        let mut made = 0_u32;
        for _ in 0..TURNS {
            if made >= events {
                break;
            }
            match play.turn(rt, alloc, &mut self.task, self.actor, moment)? {
                TaskTurn::More | TaskTurn::Gives => made = made.saturating_add(1),
                TaskTurn::Wants => self.feed()?,
                TaskTurn::Done => break,
            }
        }
        Ok(())
    }

    /// Goes on to the end at a moment, and prints it.
    pub fn run<R: Print>(
        &mut self,
        rt: &R,
        alloc: Global,
        play: &mut Play,
        moment: u64,
    ) -> anyhow::Result<()> {
        self.step(rt, alloc, play, moment, TURNS)?;
        tell_end(rt, self.actor, self.task.outcome())
    }

    // Sends what there is room for. Behind the last byte the body ends.
    fn feed(&mut self) -> anyhow::Result<()> {
        let taken = self.task.stages.feed(self.left)?;
        self.left = &self.left[taken..];
        if self.left.is_empty() {
            self.task.stages.finish(BodyEnd::Whole);
        }
        Ok(())
    }
}
