//! Tests of public calls. The loop of many connections over an outside in memory, and its log over a disk in memory.
#![tactic(auto)]

#[cfg(test)]
mod logged;
#[cfg(test)]
mod rounds;
