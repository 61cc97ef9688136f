//! What a server sums over its leaves.
/// The four sums of a sketch, as elements of the field of 2^128 elements.
#[derive(Clone, Copy, Debug, PartialEq, Eq)]
pub struct Sums {
    /// The sum of w_i·r_i.
    pub x: u128,
    /// The sum of w_i·s_i.
    pub y: u128,
    /// The sum of w_i.
    pub m: u128,
    /// The sum of w_i·r_i·s_i.
    pub z: u128,
}
