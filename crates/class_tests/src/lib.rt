//! The calls of the classes, a realm's count of events, doors and turns, beside what was worked by hand, through the
//! public calls of their crates.
#![tactic(auto)]

#[cfg(test)]
mod doors;
#[cfg(test)]
mod heads;
#[cfg(test)]
mod holds;
#[cfg(test)]
mod indexes;
#[cfg(test)]
mod logs;
#[cfg(test)]
mod records;
#[cfg(test)]
mod scrolls;
#[cfg(test)]
mod turns;
#[cfg(test)]
mod words;
