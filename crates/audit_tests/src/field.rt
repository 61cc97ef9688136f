//! Worked products and inverses, and generic code through its bounds.
use tower_field::{Bit, Field, Gf128, Quad, Tower};

fn is_product(a: u128, b: u128, product: u128) -> bool {
    Gf128(a).mul(Gf128(b)).value() == product
}

fn is_inverse(a: u128, inverse: Option<u128>) -> bool {
    match Gf128(a).invert() {
        Some(found) => inverse == Some(found.value()),
        None => inverse.is_none(),
    }
}

/// Products by hand: two factors and their product.
pub(crate) const PRODUCTS: [(u128, u128, u128); 7] = [
    (2, 2, 3),
    (2, 3, 1),
    (3, 3, 2),
    (4, 4, 9),
    (16, 16, 65),
    (256, 256, 4097),
    (1 << 64, 1 << 64, (1 << 96) + 1),
];

fn are_products(rows: &[(u128, u128, u128)]) -> bool {
    let mut right = true;
    for (a, b, product) in rows {
        right = is_product(*a, *b, *product) & right;
    }
    right
}

#[test]
fn products_are_the_worked_ones(rt: HostRuntime) {
    assert!(rt; are_products(&PRODUCTS));
}

#[test]
fn inverses_are_the_worked_ones_and_zero_has_none(rt: HostRuntime) {
    let told = [
        is_inverse(2, Some(3)),
        is_inverse(1 << 64, Some((1 << 64) + (1 << 32))),
        is_inverse(Gf128::zero().value(), None),
    ];
    assert!(rt; told == [true; 3]);
}

/// That a value times its inverse is one, that a sum with itself is zero, and that a square is a product.
fn is_lawful<F: Field>(x: F) -> bool {
    let inverts = match x.invert() {
        Some(inverse) => x.mul(inverse) == F::one(),
        None => x == F::zero(),
    };
    inverts && x.add(x) == F::zero() && x.square() == x.mul(x)
}

#[test]
fn levels_of_the_tower_keep_the_laws_of_a_field(rt: HostRuntime) {
    let two: Quad<Bit> = Quad::twist();
    let four: Quad<Quad<Bit>> = Quad::twist();
    let lawful = [
        is_lawful(Bit(true)),
        is_lawful(Bit(false)),
        is_lawful(two),
        is_lawful(Quad::<Bit>::zero()),
        is_lawful(four.add(four.square())),
        is_lawful(Gf128(0x0123_4567_89ab_cdef)),
    ];
    let traces = [four.trace(), Quad::<Bit>::one().trace()];
    assert!(rt; lawful == [true; 6] && traces == [true, false]);
}
