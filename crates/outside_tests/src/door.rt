//! A door whose accepts fail.
ghost use Rattle.std.specs.Prelude.{[], None};

use express_outside::{Connected, Ports, Socket, TcpNet, Trouble};
use express_words::outside::{Counted, Net};
use std::test::Fail;
use std::time::{Duration, Instant};

/// A socket of which each call fails.
#[derive(Drop)]
struct Broken;

impl Socket for Broken {
    ghost given = { λ _. [] };

    ghost taken = { λ _. [] };

    ghost calls = { λ _. None };

    fn now(&mut self) -> Result<Instant, Trouble> {
        Err(Trouble::Broken)
    }

    fn read_within(&mut self, _left: Duration, _buf: &mut [u8]) -> Result<usize, Trouble> {
        Err(Trouble::Broken)
    }

    fn write_within(&mut self, _left: Duration, _bytes: &[u8]) -> Result<usize, Trouble> {
        Err(Trouble::Broken)
    }
}

/// A door at which so many accepts fail before one succeeds. Nothing listens or answers anywhere else.
#[derive(Drop)]
struct Jammed {
    fails_left: u32,
    at: Instant,
}

impl Ports for Jammed {
    type Socket = Broken;

    ghost calls = { λ _. None };

    fn listen(&mut self, _at: &str) -> Result<(), Trouble> {
        Err(Trouble::Broken)
    }

    fn accept(&mut self) -> Result<Connected<Broken>, Trouble> {
        if self.fails_left == 0 {
            return Ok(Connected {
                socket: Broken,
                at: self.at,
            });
        }
        self.fails_left -= 1;
        Err(Trouble::Broken)
    }

    fn dial(&mut self, _peer: &str) -> Result<Connected<Broken>, Trouble> {
        Err(Trouble::Broken)
    }

    fn pause(&mut self) {}
}

fn accepts(net: &mut TcpNet<Jammed>) -> bool {
    net.accept().is_ok()
}

fn listens(net: &mut TcpNet<Jammed>) -> bool {
    net.listen("anywhere").is_ok()
}

fn dials(net: &mut TcpNet<Jammed>) -> bool {
    net.dial("anywhere").is_ok()
}

// Whether a net has counted so many faults, and so many of them at its door.
fn has_counted(net: &TcpNet<Jammed>, faults: u64, doors: u64) -> bool {
    net.faults() == faults && net.door_faults() == doors
}

fn jammed_net(at: Instant, fails_left: u32) -> TcpNet<Jammed> {
    TcpNet::new(Jammed { fails_left, at })
}

#[test]
fn an_accept_that_is_made_again_is_not_counted(rt: HostRuntime) -> Result<(), Fail> {
    let at = Instant::now(&rt)?;
    for fails in [0, 1, 9] {
        let mut net = jammed_net(at, fails);
        let told = [accepts(&mut net), has_counted(&net, 0, 0)];
        assert!(rt; told == [true; 2]);
    }
    Ok(())
}

#[test]
fn an_accept_that_fails_ten_times_is_one_fault(rt: HostRuntime) -> Result<(), Fail> {
    let mut net = jammed_net(Instant::now(&rt)?, 19);
    let ten = [!accepts(&mut net), has_counted(&net, 1, 1)];
    let nine = [accepts(&mut net), has_counted(&net, 1, 1)];
    assert!(rt; [ten, nine] == [[true; 2]; 2]);
    Ok(())
}

#[test]
fn a_listen_is_a_fault_at_the_door_and_a_dial_is_not(rt: HostRuntime) -> Result<(), Fail> {
    let mut net = jammed_net(Instant::now(&rt)?, 0);
    let listen = [!listens(&mut net), has_counted(&net, 1, 1)];
    let dial = [!dials(&mut net), has_counted(&net, 2, 1)];
    assert!(rt; [listen, dial] == [[true; 2]; 2]);
    Ok(())
}
