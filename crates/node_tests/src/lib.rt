//! Tests of public calls. Servers and clients beside their nets and disks in memory.
#![tactic(auto)]

#[cfg(test)]
mod batches;
#[cfg(test)]
mod door;
#[cfg(test)]
mod hidden;
#[cfg(test)]
mod journal;
#[cfg(test)]
mod nets;
#[cfg(test)]
mod notes;
#[cfg(test)]
mod requests;
#[cfg(test)]
mod runs;
#[cfg(test)]
mod tallies;
pub mod tally;
#[cfg(test)]
mod told;
#[cfg(test)]
mod two_parts;
