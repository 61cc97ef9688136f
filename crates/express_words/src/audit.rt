//! What a writer and the two servers exchange to audit a write. All numbers are elements of the field of 2^128
//! elements.

/// One server's share of a writer's proof.
#[derive(Clone, Copy, Debug, PartialEq, Eq)]
pub struct ProofShare {
    /// The constant term of f, which masks x.
    pub u: u128,
    /// The constant term of g, which masks y.
    pub v: u128,
    /// The coefficients of h, from the constant upwards.
    pub h: [u128; 5],
    /// The share of the triple's first factor.
    pub a: u128,
    /// The share of the triple's second factor.
    pub b: u128,
    /// The share of the triple's product.
    pub c: u128,
}

/// What a server opens to the other: its factors, masked by the triple.
#[derive(Clone, Copy, Debug, PartialEq, Eq)]
pub struct Openings {
    /// The share of the first factor, f at the proof point and a.
    pub d: u128,
    /// The share of the second factor, the point times g there and b.
    pub e: u128,
}

/// A server's share of the verdict. A write is accepted exactly where both sums over the servers are 0.
#[derive(Clone, Copy, Debug, PartialEq, Eq)]
pub struct Closing {
    /// The share of h(1) + h(2).
    pub o: u128,
    /// The share of the product test at the proof point.
    pub tau: u128,
}
