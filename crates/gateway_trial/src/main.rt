//! Serves known connections to realms of small stripes, and prints the replies and how each connection ended.
#![tactic(auto)]

mod host;
mod many;
mod scenes;

fn main(rt: HostRuntime) -> anyhow::Result<()> {
    scenes::serve_scenes(&rt, rt.alloc())?;
    many::list_many(&rt, rt.alloc())
}
