//! What the unit of a file says of whole texts, as tests. Serials are counted by hand: a label and its newline are two pieces.
#![tactic(auto)]

#[cfg(test)]
mod cases;
#[cfg(test)]
mod causes;
#[cfg(test)]
mod edits;
#[cfg(test)]
mod functions;
#[cfg(test)]
mod jumps;
#[cfg(test)]
mod reading;
#[cfg(test)]
mod tables;
#[cfg(test)]
mod texts;
