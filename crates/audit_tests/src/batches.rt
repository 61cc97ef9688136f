//! Worked values of batches and sorts.
ghost use Rattle.std.specs.Prelude.{◌<◌};

use batch_audit::{batch_of, sort_out};
use express_words::{Closing, NoMemory};
use snip_proof::judge;
use std::alloc::Global;
use std::test::Fail;

const NOTHING: Closing = Closing { o: 0, tau: 0 };

fn closing_of(closings: &[Closing], rho: u128) -> Closing {
    batch_of(closings, rho)
}

fn is_good(zero: &[Closing], one: &[Closing], rho: u128) -> bool {
    judge(&closing_of(zero, rho), &closing_of(one, rho))
}

#[test]
fn bad_pairs_pass_at_their_one_bad_value_alone(rt: HostRuntime) {
    let zero = [Closing { o: 2, tau: 0 }, Closing { o: 1, tau: 0 }];
    let one = [NOTHING; 2];
    let told = [
        is_good(&zero, &one, 2),
        closing_of(&zero, 3) == Closing { o: 1, tau: 0 },
        !is_good(&zero, &one, 3),
    ];
    assert!(rt; told == [true; 3]);
}

// The product is an independent program's.
#[test]
fn the_second_closing_is_taken_times_rho(rt: HostRuntime) {
    let a = 0x855a777d484fc8789311ece17c0ad3c5;
    let b = 0xd7ec74e643da718b32a068d002101fe6;
    let product = 0xb22ba96e5f948fb0e90cd378592316cd;
    let closings = [Closing { o: 5, tau: 9 }, Closing { o: a, tau: b }];
    let told = [
        closing_of(&closings, b).o == product ^ 5,
        closing_of(&closings, a).tau == product ^ 9,
        closing_of(&[], a) == NOTHING,
    ];
    assert!(rt; told == [true; 3]);
}

// How many ranges are judged, where the lengths are equal.
fn judged_of(zero: &[Closing], one: &[Closing], rejected: &mut [bool]) -> Option<u32> {
    if one.len() != zero.len() || rejected.len() != zero.len() || zero.len() > 1 << 20 {
        return None;
    }
    Some(sort_out(zero, one, &[0; 32], rejected))
}

#[test]
fn of_two_pairs_the_bad_second_is_rejected(rt: HostRuntime) {
    let zero = [NOTHING, Closing { o: 1, tau: 0 }];
    let one = [NOTHING; 2];
    let mut rejected = [true, false];
    let judged = [
        judged_of(&zero, &one, &mut rejected),
        judged_of(&[], &[], &mut []),
    ];
    assert!(rt; judged == [Some(3), Some(0)] && rejected == [false, true]);
}

fn is_bad(place: usize, step: usize) -> bool
    requires { 0 < step }
{
    place % step == step - 1
}

// Server 0's closings of so many pairs, of which each `step`-th one isn't good.
fn closings(alloc: Global, pairs: usize, step: usize) -> Result<Vec<Closing>, NoMemory>
    requires { 0 < step }
{
    let mut zero = Vec::new(alloc);
    for place in 0..pairs {
        let tau = if is_bad(place, step) { 5 } else { 4 };
        zero.push(Closing { o: 3, tau })?;
    }
    Ok(zero)
}

// Just each `step`-th one is rejected.
fn is_exact(rejected: &[bool], step: usize) -> bool
    requires { 0 < step }
{
    let mut exact = true;
    for place in 0..rejected.len() {
        exact = exact && rejected[place] == is_bad(place, step);
    }
    exact
}

// How many ranges are judged of so many pairs, and whether just the ones that aren't good are rejected.
fn sorted_of(alloc: Global, pairs: usize, step: usize) -> Result<(Option<u32>, bool), Fail>
    requires { 0 < step }
{
    let zero = closings(alloc, pairs, step)?;
    let one: Vec<Closing> = vec![in alloc; Closing { o: 3, tau: 4 }; pairs]?;
    let mut rejected: Vec<bool> = vec![in alloc; true; pairs]?;
    let judged = judged_of(&zero, &one, &mut rejected);
    Ok((judged, is_exact(&rejected, step)))
}

#[test]
fn of_a_thousand_pairs_just_the_bad_are_rejected(rt: HostRuntime) -> Result<(), Fail> {
    for (step, judged) in [(2048, 1), (1024, 21), (64, 223), (1, 2047)] {
        let sorted = sorted_of(rt.alloc(), 1024, step)?;
        assert!(rt; sorted == (Some(judged), true), "each {step}-th");
    }
    Ok(())
}
