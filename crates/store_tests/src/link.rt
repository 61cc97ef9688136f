//! Both ends of a link through a window of one command and of two, and of the largest settings.
//! What the helpers say of a link is what the next call on it requires, and no more.
ghost use Rattle.std.specs.Prelude.{◌≡◌, ◌+◌, ◌-◌, ◌<◌, ◌≤◌, ◌^◌, length};

use express_words::NoMemory;
use link_order::{Arrival, Incoming, Outgoing};
use std::alloc::Global;
use std::test::Fail;

fn issues(link: &mut Outgoing, frame: &[u8], wanted: Result<u64, u64>) -> bool
    requires { length frame.now ≤ link.old.size }
    ensures { link.new.size ≡ link.old.size }
{
    link.next() < u64::MAX && link.issue(frame) == wanted
}

fn acknowledges(link: &mut Outgoing, number: u64) -> bool
    ensures { link.new.size ≡ link.old.size }
{
    link.acknowledge(number)
}

// Whether this command is the oldest that is outstanding.
fn is_oldest(link: &Outgoing, number: u64, frame: &[u8]) -> bool {
    match link.oldest() {
        Some((oldest, bytes)) => oldest == number && *bytes == *frame,
        None => false,
    }
}

fn is_empty(link: &Outgoing) -> bool {
    link.oldest().is_none()
}

fn one_waits(alloc: Global) -> Result<[bool; 7], NoMemory> {
    let mut one = Outgoing::open(alloc, 1, 16)?;
    Ok([
        issues(&mut one, b"a", Ok(1)),
        issues(&mut one, b"b", Err(1)),
        !acknowledges(&mut one, 2),
        acknowledges(&mut one, 1),
        is_empty(&one),
        issues(&mut one, b"bc", Ok(2)),
        is_oldest(&one, 2, b"bc"),
    ])
}

fn two_wait(alloc: Global) -> Result<[bool; 6], NoMemory> {
    let mut two = Outgoing::open(alloc, 2, 16)?;
    Ok([
        issues(&mut two, b"a", Ok(1)),
        issues(&mut two, b"b", Ok(2)),
        issues(&mut two, b"c", Err(1)),
        !acknowledges(&mut two, 2),
        acknowledges(&mut two, 1),
        issues(&mut two, b"c", Ok(3)),
    ])
}

#[test]
fn commands_wait_within_the_window_and_go_in_order(rt: HostRuntime) -> Result<(), Fail> {
    let (one, two) = (one_waits(rt.alloc())?, two_wait(rt.alloc())?);
    assert!(rt; one == [true; 7] && two == [true; 6]);
    Ok(())
}

fn carry(link: &mut Incoming, reply: &[u8])
    requires fits { length reply.now ≤ link.old.size }
    requires countable { link.old.carried < 2 ^ 64 - 1 }
    ensures size { link.new.size ≡ link.old.size }
    ensures carried { link.new.carried ≡ link.old.carried + 1 }
{
    link.carry(reply);
}

// What this end answers a command of this number: its kept reply, or a word of why there is none.
fn arrives(link: &Incoming, number: u64) -> &[u8] {
    match link.arrival(number) {
        Arrival::Next => b"next",
        Arrival::Kept(reply) => reply,
        Arrival::Passed => b"passed",
    }
}

// Whether a command of this number is answered by this reply, or word.
fn is_answered(link: &Incoming, number: u64, reply: &[u8]) -> bool {
    *arrives(link, number) == *reply
}

fn one_is_kept(one: &Incoming) -> [bool; 3] {
    [
        is_answered(one, 1, b"first"),
        is_answered(one, 2, b"next"),
        is_answered(one, 3, b"passed"),
    ]
}

fn carry_three(link: &mut Incoming)
    requires { (link.old.size ≡ 16) × (link.old.carried ≡ 0) }
{
    carry(link, b"first");
    carry(link, b"second");
    carry(link, b"third");
}

fn two_are_kept(two: &Incoming) -> [bool; 5] {
    [
        is_answered(two, 1, b"passed"),
        is_answered(two, 2, b"second"),
        is_answered(two, 3, b"third"),
        is_answered(two, 4, b"next"),
        is_answered(two, 5, b"passed"),
    ]
}

#[test]
fn the_last_replies_are_kept_and_other_numbers_pass(rt: HostRuntime) -> Result<(), Fail> {
    let mut one = Incoming::open(rt.alloc(), 1, 16)?;
    carry(&mut one, b"first");
    assert!(rt; one_is_kept(&one) == [true; 3]);
    let mut two = Incoming::open(rt.alloc(), 2, 16)?;
    carry_three(&mut two);
    assert!(rt; two_are_kept(&two) == [true; 5]);
    Ok(())
}

// The most commands that may be outstanding, each of the most bytes.
fn most_commands(alloc: Global, frame: &[u8; 8213]) -> Result<bool, NoMemory> {
    let mut commands = Outgoing::open(alloc, 32, 8213)?;
    let mut issued = true;
    for number in 1..33 {
        issued = issues(&mut commands, frame, Ok(number)) & issued;
    }
    Ok(issues(&mut commands, frame, Err(1)) & issued)
}

// The most replies that are kept, each of the most bytes.
fn most_replies(alloc: Global, frame: &[u8; 8213]) -> Result<bool, NoMemory> {
    let mut replies = Incoming::open(alloc, 32, 8213)?;
    let mut kept = true;
    for number in 1..33u64 {
        carry(&mut replies, frame);
        kept = is_answered(&replies, number, frame) & kept;
    }
    Ok(is_answered(&replies, 1, frame) & kept)
}

#[test]
fn the_most_commands_and_replies_of_the_longest_are_kept(rt: HostRuntime) -> Result<(), Fail> {
    let frame = [7; 8213];
    let most = [
        most_commands(rt.alloc(), &frame)?,
        most_replies(rt.alloc(), &frame)?,
    ];
    assert!(rt; most == [true; 2]);
    Ok(())
}
