//! Tests of public calls: connections over loopback.
#![tactic(auto)]

#[cfg(test)]
mod bench;
#[cfg(test)]
mod dials;
#[cfg(test)]
mod doors;
#[cfg(test)]
mod peers;
