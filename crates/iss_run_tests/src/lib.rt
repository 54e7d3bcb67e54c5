//! Tests of the top call over an outside in memory: what each run does, if each of its calls fails, and if it stops anywhere.
//!
//! It may cite every crate below.
//! Nothing may cite it.
#![tactic(auto)]

#[cfg(test)]
mod answers;
#[cfg(test)]
mod halves;
#[cfg(test)]
mod images;
#[cfg(test)]
mod lines;
#[cfg(test)]
mod links;
#[cfg(test)]
mod padded;
#[cfg(test)]
mod playing;
#[cfg(test)]
mod replays;
#[cfg(test)]
mod rows;
#[cfg(test)]
mod runs;
#[cfg(test)]
mod serving;
#[cfg(test)]
mod stops;
#[cfg(test)]
mod strangers;
#[cfg(test)]
mod told;
