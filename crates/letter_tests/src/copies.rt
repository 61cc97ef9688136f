//! A letter's copies, answer by answer, and what becomes of it.
use crate::told::is_told;
use express_words::Refusal;
use letter_copies::{Answer, Copies, fate_by};
use std::alloc::Global;
use std::test::Fail;

// One try of the next copy, whose last proof goes out, and each of these answers to it.
fn tried(copies: &mut Copies, answers: &[Answer], told: &mut String) -> Result<(), Fail> {
    for answer in answers {
        copies.begin();
        copies.proof_goes();
        let next = copies.hear(*answer);
        write!(told, "{next:?} {:?}\n", copies.end())?;
    }
    Ok(())
}

// Two parts of two copies each: the end by these answers, one a try.
fn end_told(alloc: Global, answers: &[Answer], told: &mut String) -> Result<(), Fail> {
    let mut copies = Copies::start(alloc, 2, 2)?;
    tried(&mut copies, answers, told)?;
    write!(
        told,
        "{} {} {:?} {:?}\n",
        copies.written(),
        copies.may_be_written(),
        copies.waiting(),
        copies.present()
    )?;
    Ok(())
}

const ENDS: &str =
    "TryIsOver None\nSameAgain None\nTryIsOver None\nTryIsOver None\nTryIsOver Some(Written)\n\
    2 true None None\n\
    TryIsOver None\nTryIsOver None\n1 true Some(2) None\n\
    TryIsOver None\nTryIsOver None\nTryIsOver None\nTryIsOver Some(MaybeWritten)\n2 true None None\n\
    Unknown NotWritten\n";

// The ends by what was answered, and what an answer tells on either side of the last proof.
fn ends_told(alloc: Global) -> Result<String, Fail> {
    let mut told = String::new(alloc);
    let refused = Answer::Refused(Refusal::Stale(3));
    let mixed = [
        Answer::Accepted,
        Answer::Lost,
        Answer::NotYours,
        Answer::EndedWritten,
        refused,
    ];
    end_told(alloc, &mixed, &mut told)?;
    end_told(alloc, &[refused, Answer::Accepted], &mut told)?;
    let parts = [Answer::Accepted, Answer::Accepted, refused, refused];
    end_told(alloc, &parts, &mut told)?;
    let (before, ended) = (
        fate_by(false, Answer::Accepted),
        fate_by(true, Answer::EndedNotWritten),
    );
    write!(told, "{before:?} {ended:?}\n")?;
    Ok(told)
}

#[test]
fn ends(rt: HostRuntime) -> Result<(), Fail> {
    is_told(ends_told(rt.alloc()), ENDS)
}

// A copy that each try leaves unwritten: the last of its tries.
fn nowhere_told(alloc: Global) -> Result<String, Fail> {
    let mut copies = Copies::start(alloc, 1, 3)?;
    let mut before = String::new(alloc);
    tried(&mut copies, &[Answer::EndedNotWritten; 17], &mut before)?;
    let mut told = String::new(alloc);
    write!(told, "{:?} ", copies.end())?;
    tried(&mut copies, &[Answer::EndedNotWritten], &mut told)?;
    write!(told, "{}\n", copies.may_be_written())?;
    Ok(told)
}

#[test]
fn nowhere(rt: HostRuntime) -> Result<(), Fail> {
    is_told(
        nowhere_told(rt.alloc()),
        "None TryIsOver Some(NotWritten)\nfalse\n",
    )
}
