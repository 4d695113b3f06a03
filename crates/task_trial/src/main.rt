//! Plays requests on objects and containers by turns in one realm, and prints each event with its answer, the
//! bytes that a read gives, and how each request ended.
#![tactic(auto)]

mod counts;
mod cutting;
mod ends;
mod gets;
mod note;
mod play;
mod puts;
mod scenes;
mod words;

fn main(rt: HostRuntime) -> anyhow::Result<()> {
    let alloc = rt.alloc();
    cutting::letters_are_cut(&rt, alloc)?;
    scenes::play_scenes(&rt, alloc)
}
