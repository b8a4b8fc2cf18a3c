//! Sizes of instructions from their text, as tests. Each size is what GNU as 2.40 gives for the line, without `-O`.
#![tactic(auto)]

#[cfg(test)]
mod checks;
#[cfg(test)]
mod jumps;
#[cfg(test)]
mod moves;
#[cfg(test)]
mod others;
#[cfg(test)]
mod sums;
