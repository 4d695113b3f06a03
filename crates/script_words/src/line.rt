use crate::ActorName;
use object_words::{BucketName, ObjectName};
use rgw_types::Bytes;
use task_words::Job;

/// The bytes of an object that a script writes.
#[derive(Debug, Drop)]
pub enum ScriptBody {
    /// A word, as it stands; no bytes for `-`.
    Word(Bytes),
    /// So many times the letter `x`, as `*N` says; at most 5368709120 times where a line was read.
    Times(u64),
}

/// What an actor does.
#[derive(Debug, Drop)]
pub enum Verb {
    /// Writes an object: `put C/O BODY`.
    Put {
        container: BucketName,
        name: ObjectName,
        body: ScriptBody,
    },
    /// Reads an object: `get C/O`.
    Get {
        container: BucketName,
        name: ObjectName,
    },
    /// Counts the objects of a container: `stat C`.
    Stat {
        container: BucketName,
    },
    /// Lists the objects of a container: `list C`.
    List {
        container: BucketName,
    },
    /// Makes a container, where there is none of the name: `mk C`.
    Make {
        container: BucketName,
    },
    /// Removes a container that has no object: `rm C`.
    Remove {
        container: BucketName,
    },
    /// Counts the objects of each container of the account: `account`.
    Account,
    /// Does a job of an administrator: `check C`.
    Job(Job),
}

/// A line of a script.
#[derive(Debug, Drop)]
pub enum Line {
    /// `clock N`: later events bring the moment N, in microseconds since 1970.
    Clock(u64),
    /// `start A Z VERB ARGS`: an actor A of the zone Z begins.
    Start {
        actor: ActorName,
        zone: u8,
        verb: Verb,
    },
    /// `step A N`: the actor makes N events, or ends before.
    Step {
        actor: ActorName,
        events: u64,
    },
    /// `run A`: the actor goes on until it ends.
    Run(ActorName),
    /// `stop A`: the actor makes no further event.
    Stop(ActorName),
    /// `do Z VERB ARGS`: an actor without a name, of the zone Z, begins and goes on until it ends.
    Do {
        zone: u8,
        verb: Verb,
    },
}
