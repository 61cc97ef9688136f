//! Tests of letters' pieces and their places, by what `bench/letter_vectors` prints, of their copies, and of
//! boxes in which they met.
#![tactic(auto)]

#[cfg(test)]
mod copies;
#[cfg(test)]
mod mail;
#[cfg(test)]
mod met;
#[cfg(test)]
mod pieces;
#[cfg(test)]
mod places;
#[cfg(test)]
mod read;
#[cfg(test)]
mod told;
