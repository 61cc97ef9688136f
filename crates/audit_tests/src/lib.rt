//! Tests of public calls. The audit of a write: fields, polynomials, sketch, proof, batches and views,
//! against outside vectors.
#![tactic(auto)]

#[cfg(test)]
mod batches;
#[cfg(test)]
mod field;
#[cfg(test)]
mod polynomials;
#[cfg(test)]
mod products;
#[cfg(test)]
mod proof;
#[cfg(test)]
mod sketch;
#[cfg(test)]
mod views;
