//! A server as the machine that its records give.
use crate::did::Did;
use crate::frames::{Sender, frame_in, is_one_frame, put_record};
use crate::opening::Opening;
use crate::server::Core;
use express_words::NoMemory;
use frame_rules::FRAME_MAX;
use kept_machine::{Machine, Takes};
use node_journal::RECORD_MAX;
use std::alloc::Global;
use wire_frames::Received;

/// A server, and how it was opened.
#[derive(Drop)]
pub struct Server {
    pub(crate) opening: Opening,
    pub(crate) core: Core,
}

/// Bytes that a server is handed, and by whom.
#[derive(Clone, Copy)]
pub struct Handing<'a, 'b> {
    pub(crate) sender: Sender,
    pub(crate) received: &'a Received<'b>,
}

impl Machine for Server {
    ghost use Rattle.node_restart.specs.Machines.{server_rules};
    ghost use Rattle.node_restart.specs.MachineLaws.{server_rules_hold};

    ghost rules = { server_rules };

    fn is_opening(first: &[u8]) -> bool {
        match Opening::of(first) {
            Some(_) => true,
            None => false,
        }
    }

    fn is_record(bytes: &[u8]) -> bool {
        match frame_in(bytes) {
            Some(_) => true,
            None => false,
        }
    }

    fn open(alloc: Global, first: &[u8]) -> Result<Server, NoMemory> {
        let Some(opening) = Opening::of(first) else {
            unreachable!()
        };
        match Core::open(alloc, &opening) {
            Ok(core) => Ok(Server { opening, core }),
            Err(NoMemory) => Err(NoMemory),
        }
    }

    fn take_memory(&mut self, _alloc: Global, _bytes: &[u8]) -> Result<(), NoMemory> {
        Ok(())
    }

    fn step(&mut self, bytes: &[u8]) {
        let Some((sender, received)) = frame_in(bytes) else {
            unreachable!()
        };
        let mut out = [0; FRAME_MAX];
        let _ = self.core.step(sender, &received, &mut out);
    }

    ghost rules_hold = { server_rules_hold };
}

impl<'a, 'b> Takes<Handing<'a, 'b>> for Server {
    type Told = Did;

    ghost use Rattle.std.specs.Prelude.{List, ℕ};
    ghost use Rattle.node_restart.specs.Frames.{handed};
    ghost use Rattle.node_restart.specs.Machines.{TellsStep, record_of};
    ghost use Rattle.node_restart.specs.MachineLaws.{tells_of_same};

    ghost is_input = { λ h. Unit {0} };

    ghost record_of = { λ h. record_of (handed h.sender h.received.now) };

    ghost tells = { λ h before now did out out_new.
        TellsStep (handed h.sender h.received.now) before now did out out_new };

    ghost most = { 8213 };

    fn record<'r>(input: &Handing<'a, 'b>, room: &'r mut [u8; RECORD_MAX]) -> Option<&'r [u8]> {
        if is_one_frame(input.received) {
            Some(put_record(input.sender, input.received.bytes(), room))
        } else {
            None
        }
    }

    fn take(&mut self, input: &Handing<'a, 'b>, out: &mut [u8]) -> Did {
        self.core.step(input.sender, input.received, out)
    }

    ghost tells_of_same = { λ h a b now did out out_new same tells.
        tells_of_same (handed h.sender h.received.now) a b now did out out_new same tells };
}
