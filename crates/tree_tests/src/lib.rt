//! Tests of public calls. The tree of the point function: expansions, keys, walks and passes, against outside
//! vectors.
#![tactic(auto)]

#[cfg(test)]
mod expansion;
#[cfg(test)]
mod keys;
#[cfg(test)]
mod numbers;
#[cfg(test)]
mod passes;
#[cfg(test)]
mod point_keys;
