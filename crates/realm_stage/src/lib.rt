//! A realm that a program works on to try it or to measure it. Its door tells nothing to proofs, so that who
//! makes events through it need not show that they are allowed.
#![tactic(auto)]

mod stage;

pub use stage::RealmStage;
