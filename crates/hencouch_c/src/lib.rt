// What C and Rust link: each entry of `hencouch` under its own name, by the C calling convention, with the same clauses.
#![tactic(auto)]

pub mod chroma;
pub mod copied;
pub mod inter;
pub mod levels;
pub mod motion;
pub mod predicted;
pub mod run;
pub mod sample;
pub mod samples;
pub mod transform;
pub mod whole;
