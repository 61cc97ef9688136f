//! Tests of public calls. The top call over objects in memory, and what it is handed.
#![tactic(auto)]

#[cfg(test)]
mod batch;
#[cfg(test)]
mod cases;
#[cfg(test)]
mod cloak;
#[cfg(test)]
mod runs;
#[cfg(test)]
mod seeds;
