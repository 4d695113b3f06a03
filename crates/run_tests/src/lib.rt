//! The words of the program, the lines of scripts, and runs, beside what was worked by hand, through the public calls
//! of their crates.
#![tactic(auto)]

#[cfg(test)]
mod lines;
#[cfg(test)]
mod options;
#[cfg(test)]
mod players;
#[cfg(test)]
mod reading;
#[cfg(test)]
mod runs;
#[cfg(test)]
mod scripts;
