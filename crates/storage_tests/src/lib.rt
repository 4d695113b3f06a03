//! Lists, names, frames, maps, pools and bytes that are stored, beside what was worked by hand or by another program,
//! through the public calls of their crates.
#![tactic(auto)]

#[cfg(test)]
mod entries;
#[cfg(test)]
mod fillers;
#[cfg(test)]
mod lists;
#[cfg(test)]
mod manifests;
#[cfg(test)]
mod maps;
#[cfg(test)]
mod names;
#[cfg(test)]
mod orders;
#[cfg(test)]
mod pools;
#[cfg(test)]
mod regions;
