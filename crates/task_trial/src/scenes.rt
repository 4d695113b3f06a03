//! Known histories.
use crate::counts::count;
use crate::gets::get;
use crate::play::Play;
use crate::puts::Upload;
use crate::words::{TAG_LIFE, small, usual};
use realm_model::Settings;
use std::alloc::Global;

const LETTERS: &[u8] = b"abcdefghijklmnopqrstuvwxyz";

/// What a realm is set to.
#[derive(Clone, Copy, Debug)]
enum Size {
    /// As a program to which nothing is told, with so many shards.
    Usual { shards: u32 },
    /// Stripes and frames of 16 bytes, and so many frames.
    Small { frames: u32 },
}

/// A PUT, and who makes its events.
#[derive(Clone, Copy, Debug)]
struct Sent {
    actor: u64,
    name: &'static str,
    bytes: &'static [u8],
}

/// What comes next in a scene. PUTs are known by their places.
#[derive(Clone, Copy, Debug)]
enum Act {
    /// A PUT goes on by so many events.
    Step {
        put: usize,
        moment: u64,
        events: u32,
    },
    /// A PUT goes on to its end.
    Run {
        put: usize,
        moment: u64,
    },
    /// The object `k` is read.
    Get {
        actor: u64,
    },
    /// The container is counted.
    Count {
        actor: u64,
    },
    /// The container is made, if it is not there.
    Preset {
        actor: u64,
    },
}

/// A history. First actor 1 makes the container.
#[derive(Clone, Copy, Debug)]
struct Scene {
    title: &'static str,
    size: Size,
    puts: &'static [Sent],
    acts: &'static [Act],
}

const HELLO: Sent = Sent {
    actor: 2,
    name: "k",
    bytes: b"hello",
};

const ALL_LETTERS: Sent = Sent {
    actor: 2,
    name: "k",
    bytes: LETTERS,
};

// Of two writers of a name the one that completes last changed the head first: its row is not stored, and
// both are replied that they succeeded.
const OLDER_COMPLETION: Scene = Scene {
    title: "the older completion loses",
    size: Size::Usual { shards: 1 },
    puts: &[
        HELLO,
        Sent {
            actor: 3,
            name: "k",
            bytes: b"",
        },
    ],
    acts: &[
        Act::Step {
            put: 0,
            moment: 0,
            events: 4,
        },
        Act::Step {
            put: 1,
            moment: 0,
            events: 4,
        },
        Act::Run { put: 1, moment: 0 },
        Act::Run { put: 0, moment: 0 },
        Act::Count { actor: 4 },
    ],
};

// The change comes at the deadline of its tag, twice, and succeeds the third time.
const TWO_TAGS_EXPIRE: Scene = Scene {
    title: "a tag expires twice",
    size: Size::Usual { shards: 1 },
    puts: &[HELLO],
    acts: &[
        Act::Step {
            put: 0,
            moment: 0,
            events: 3,
        },
        Act::Step {
            put: 0,
            moment: TAG_LIFE,
            events: 5,
        },
        Act::Run {
            put: 0,
            moment: 2 * TAG_LIFE,
        },
        Act::Count { actor: 3 },
    ],
};

// The third change comes at the deadline of its tag too.
const THREE_TAGS_EXPIRE: Scene = Scene {
    title: "a tag expires three times",
    size: Size::Usual { shards: 1 },
    puts: &[HELLO],
    acts: &[
        Act::Step {
            put: 0,
            moment: 0,
            events: 3,
        },
        Act::Step {
            put: 0,
            moment: TAG_LIFE,
            events: 5,
        },
        Act::Step {
            put: 0,
            moment: 2 * TAG_LIFE,
            events: 5,
        },
        Act::Run {
            put: 0,
            moment: 3 * TAG_LIFE,
        },
        Act::Count { actor: 3 },
    ],
};

// What is read between the tails of a new object and its head is the old one.
const READ_BETWEEN: Scene = Scene {
    title: "a read between the tails and the head",
    size: Size::Small { frames: 8 },
    puts: &[
        Sent {
            actor: 3,
            name: "k",
            bytes: b"abc",
        },
        Sent {
            actor: 5,
            name: "k",
            bytes: LETTERS,
        },
    ],
    acts: &[
        Act::Count { actor: 2 },
        Act::Run { put: 0, moment: 0 },
        Act::Count { actor: 4 },
        Act::Step {
            put: 1,
            moment: 0,
            events: 4,
        },
        Act::Get { actor: 6 },
        Act::Run { put: 1, moment: 0 },
        Act::Get { actor: 7 },
        Act::Count { actor: 8 },
    ],
};

// The one frame has the tail.
const NO_FRAME_FOR_THE_HEAD: Scene = Scene {
    title: "no space for the head",
    size: Size::Small { frames: 1 },
    puts: &[ALL_LETTERS],
    acts: &[Act::Run { put: 0, moment: 0 }],
};

// The two frames have the first object.
const NO_FRAME_FOR_THE_NEXT: Scene = Scene {
    title: "no space for the next object",
    size: Size::Small { frames: 2 },
    puts: &[
        ALL_LETTERS,
        Sent {
            actor: 3,
            name: "a",
            bytes: b"a",
        },
    ],
    acts: &[
        Act::Run { put: 0, moment: 0 },
        Act::Run { put: 1, moment: 0 },
    ],
};

// Of four stripes the second is the first tail, and has the one frame.
const NO_FRAME_FOR_A_TAIL: Scene = Scene {
    title: "no space for a tail",
    size: Size::Small { frames: 1 },
    puts: &[Sent {
        actor: 2,
        name: "k",
        bytes: b"abcdefghijklmnopqrstuvwxyzabcdefghijklmnopqrstuvwxyz",
    }],
    acts: &[Act::Run { put: 0, moment: 0 }],
};

const THERE: Scene = Scene {
    title: "a container that is there",
    size: Size::Usual { shards: 2 },
    puts: &[],
    acts: &[Act::Preset { actor: 2 }],
};

const SCENES: [Scene; 8] = [
    OLDER_COMPLETION,
    TWO_TAGS_EXPIRE,
    THREE_TAGS_EXPIRE,
    READ_BETWEEN,
    NO_FRAME_FOR_THE_HEAD,
    NO_FRAME_FOR_THE_NEXT,
    NO_FRAME_FOR_A_TAIL,
    THERE,
];

/// Plays each scene in a realm of its own.
pub fn play_scenes<R: Print>(rt: &R, alloc: Global) -> anyhow::Result<()> {
    for scene in SCENES.as_slice() {
        play_scene(rt, alloc, scene)?;
    }
    Ok(())
}

fn play_scene<R: Print>(rt: &R, alloc: Global, scene: &Scene) -> anyhow::Result<()> {
    let title = scene.title;
    println!(rt; "{title}")?;
    let settings = settings_of(scene.size)?;
    let mut uploads = uploads_of(alloc, &settings, scene.puts)?;
    let played = play_uploads(rt, alloc, &settings, &mut uploads, scene.acts);
    drop(uploads);
    played
}

fn play_uploads<R: Print>(
    rt: &R,
    alloc: Global,
    settings: &Settings,
    uploads: &mut Vec<Upload>,
    acts: &[Act],
) -> anyhow::Result<()> {
    let mut play = Play::new(alloc, settings)?;
    let played = play_acts(rt, alloc, &mut play, uploads, acts);
    drop(play);
    played
}

fn play_acts<R: Print>(
    rt: &R,
    alloc: Global,
    play: &mut Play,
    uploads: &mut Vec<Upload>,
    acts: &[Act],
) -> anyhow::Result<()> {
    play.preset(rt, alloc, 1)?;
    for act in acts {
        act_out(rt, alloc, play, uploads, *act)?;
    }
    Ok(())
}

fn settings_of(size: Size) -> anyhow::Result<Settings> {
    match size {
        Size::Usual { shards } => usual(shards),
        Size::Small { frames } => small(frames),
    }
}

fn uploads_of(
    alloc: Global,
    settings: &Settings,
    puts: &'static [Sent],
) -> anyhow::Result<Vec<Upload>> {
    let mut uploads = Vec::new(alloc);
    match add_uploads(alloc, settings, puts, &mut uploads) {
        Ok(()) => Ok(uploads),
        Err(error) => {
            drop(uploads);
            Err(error)
        }
    }
}

fn add_uploads(
    alloc: Global,
    settings: &Settings,
    puts: &'static [Sent],
    uploads: &mut Vec<Upload>,
) -> anyhow::Result<()> {
    for sent in puts {
        let Sent { actor, name, bytes } = *sent;
        uploads.push(Upload::new(alloc, settings, actor, name, bytes)?)?;
    }
    Ok(())
}

fn act_out<R: Print>(
    rt: &R,
    alloc: Global,
    play: &mut Play,
    uploads: &mut Vec<Upload>,
    act: Act,
) -> anyhow::Result<()> {
    match act {
        Act::Step {
            put,
            moment,
            events,
        } => match uploads.get_mut(put) {
            Some(upload) => upload.step(rt, alloc, play, moment, events),
            None => Ok(()),
        },
        Act::Run { put, moment } => match uploads.get_mut(put) {
            Some(upload) => upload.run(rt, alloc, play, moment),
            None => Ok(()),
        },
        Act::Get { actor } => get(rt, alloc, play, actor, "k"),
        Act::Count { actor } => count(rt, alloc, play, actor),
        Act::Preset { actor } => play.preset(rt, alloc, actor),
    }
}
