//! Tests of the gates: what no clause of theirs says.
#![tactic(auto)]

#[cfg(test)]
mod leader;
#[cfg(test)]
mod printed;
#[cfg(test)]
mod servers;
#[cfg(test)]
mod statement;
#[cfg(test)]
mod told;
