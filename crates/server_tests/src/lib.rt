//! Tests of what an operator says to a server for many: settings files, words, and the lines that it prints.
#![tactic(auto)]

#[cfg(test)]
mod lines;
#[cfg(test)]
mod settings;
#[cfg(test)]
mod told;
#[cfg(test)]
mod words;
