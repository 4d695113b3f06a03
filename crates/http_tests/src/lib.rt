//! Dates, the outside, bodies, heads and requests of HTTP, and the Swift words, users, requests, listings and replies,
//! beside tables that were written by hand, through the public calls of their crates.
#![tactic(auto)]

#[cfg(test)]
mod asked;
#[cfg(test)]
mod chunks;
#[cfg(test)]
mod dates;
#[cfg(test)]
mod intake;
#[cfg(test)]
mod listings;
#[cfg(test)]
mod model;
#[cfg(test)]
mod outside;
#[cfg(test)]
mod repeating;
#[cfg(test)]
mod replies;
#[cfg(test)]
mod requests;
#[cfg(test)]
mod tasks;
#[cfg(test)]
mod users;
#[cfg(test)]
mod words;
