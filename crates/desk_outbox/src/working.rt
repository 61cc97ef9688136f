//! The work on a try.
ghost use Rattle.std.specs.Prelude.{◌≡◌, ◌≢◌, ◌<◌, length, Ok, Err, OnOk, true, false};
ghost use Rattle.client_core.specs.LastProof.{at_last_proof};
ghost use Rattle.client_core.specs.Answers.{progress_in};
ghost use Rattle.client_core.specs.declared.progress.Progress.TheVariants as progress;
ghost use Rattle.step_rules.specs.ClientReplies.{on_reply};
ghost use Rattle.kept_machine.specs.Faults.{Counts};
ghost use Rattle.desk_tries.specs.declared.sending.Next.TheVariants as next;
ghost use Rattle.desk_tries.specs.Steps.{turn_of};
ghost use Rattle.kept_errands.specs.Steps.{DiskFaultBy, NetFaultBy};
ghost use Rattle.node_exchange.specs.Exchanging.{CountBy, EarlyAtEnd};
ghost use Rattle.desk_outbox.specs.Answers.{answer_lost, answer_to, named_by};
ghost use Rattle.desk_outbox.specs.Places.{state_at};
ghost use Rattle.desk_outbox.specs.Works.{Does, Ends, GoesOn, Notes, Readies, Steps, Talks, Works, ended_at, may_be_written, state_of};

use crate::answering::{answer_lost, answer_to, named_by, stop_to};
use crate::outbox::Outbox;
use crate::place::Place;
use client_restart::KeepFault;
use desk_tries::{Answer, LetterEnd, Next, Sending};
use express_words::outside::Net;
use frame_rules::FRAME_MAX;
use kept_errands::{Halt, talk};
use node_client::{Peers, Stop};
use node_exchange::Broken;
use node_journal::Disk;

fn goes_on(then: Next) -> bool
    ensures on { result ≡ true → then ≡ next.GoOn }
    ensures other { result ≡ false → then ≢ next.GoOn }
{
    matches!(then, Next::GoOn)
}

impl<D: Disk> Outbox<D> {
    // The letter's sending, as the try stands.
    fn sending(&self) -> Sending
        ensures { result ≡ state_of self.now }
    {
        let Ok(count) = u8::try_from(self.card.addresses.as_slice().len()) else {
            unreachable!()
        };
        let place = self.place;
        Sending::kept(count, place.address, place.further, place.proof_out)
    }

    /// Whether a try so far can have written the letter: where it can't, the letter isn't written, and never is if it is
    /// given up.
    pub fn may_be_written(&self) -> bool
        ensures { result ≡ may_be_written self.now }
    {
        match self.place.next {
            Next::Stop(LetterEnd::NotWritten) => false,
            Next::Stop(_) => true,
            _ => self.sending().may_be_written(),
        }
    }

    // A place is on the disk before the try stands there.
    #[tactic(auto, using(crate::proofs::TryLaws::noted_try, crate::proofs::TryLaws::missed_try))]
    fn note(&mut self, place: Place) -> Result<(), KeepFault>
        requires first { place.first < length self.old.card.addresses }
        requires address { place.address < length self.old.card.addresses }
        ensures notes { Notes D.disk D.Counted.seen place self.old self.new result }
        ensures counts { Counts (D.Counted.seen self.old.kept.disk).faults
            (D.Counted.seen self.new.kept.disk).faults result }
    {
        match self.client.remark(&place.record()) {
            Ok(()) => {
                self.place = place;
                Ok(())
            }
            Err(fault) => Err(fault),
        }
    }

    // Before the last proof goes out that is noted.
    fn make_ready(&mut self) -> Result<(), KeepFault>
        ensures readies { Readies D.disk D.Counted.seen self.old self.new result }
        ensures proof { OnOk result (at_last_proof self.new.kept.core.client.current ≡ true
            → self.new.place.proof_out ≡ true) }
        ensures counts { Counts (D.Counted.seen self.old.kept.disk).faults
            (D.Counted.seen self.new.kept.disk).faults result }
    {
        if !self.client.is_at_last_proof() || self.place.proof_out {
            return Ok(());
        }
        let mut place = self.place;
        place.proof_out = true;
        self.note(place)
    }

    // The frame fits: the client hears it.
    fn go_on(&mut self, frame: &[u8]) -> Result<Next, Halt>
        requires fits { progress_in (on_reply self.old.kept.core.client frame.now).progress ≡ progress.Next }
        ensures goes_on { GoesOn D.disk D.Counted.seen frame.now self.old self.new result }
        ensures counts { DiskFaultBy result (D.Counted.seen self.old.kept.disk).faults
            (D.Counted.seen self.new.kept.disk).faults }
    {
        match self.client.hear(frame) {
            Ok(_) => Ok(Next::GoOn),
            Err(fault) => Err(Halt::Keep(fault)),
        }
    }

    // The try has come to its end at an answer, behind which its sending stands so.
    fn end(&mut self, next: Next, sending: &Sending, answer: Answer) -> Result<Next, Halt>
        requires state { sending.now ≡ (turn_of (state_of self.old) answer).state }
        requires next { next ≡ (turn_of (state_of self.old) answer).next }
        ensures ends { Ends D.disk D.Counted.seen
            (ended_at self.old.place (turn_of (state_of self.old) answer) answer) self.old self.new result }
        ensures counts { DiskFaultBy result (D.Counted.seen self.old.kept.disk).faults
            (D.Counted.seen self.new.kept.disk).faults }
    {
        let mut place = self.place;
        place.address = sending.address();
        place.further = sending.further();
        place.proof_out = sending.is_proof_out();
        place.next = next;
        place.named = named_by(answer);
        match self.note(place) {
            Ok(()) => Ok(next),
            Err(fault) => Err(Halt::Keep(fault)),
        }
    }

    // What is done at a frame.
    fn take(&mut self, frame: &[u8]) -> Result<Next, Halt>
        ensures does { Does D.disk D.Counted.seen (Ok frame.now) self.old self.new result }
        ensures counts { DiskFaultBy result (D.Counted.seen self.old.kept.disk).faults
            (D.Counted.seen self.new.kept.disk).faults }
    {
        let progress = self.client.progress_at(frame);
        let answer = answer_to(&progress);
        let mut sending = self.sending();
        match sending.hear(answer) {
            Next::GoOn => self.go_on(frame),
            Next::SameAgain => Err(Halt::Stop(stop_to(&progress))),
            next => self.end(next, &sending, answer),
        }
    }

    // What is done where no frame came.
    fn miss(&mut self, why: Broken) -> Result<Next, Halt>
        ensures does { Does D.disk D.Counted.seen (Err why) self.old self.new result }
        ensures counts { DiskFaultBy result (D.Counted.seen self.old.kept.disk).faults
            (D.Counted.seen self.new.kept.disk).faults }
    {
        let answer = answer_lost(&why);
        let mut sending = self.sending();
        match sending.hear(answer) {
            Next::GoOn | Next::SameAgain => Err(Halt::Stop(Stop::from(why))),
            next => self.end(next, &sending, answer),
        }
    }

    // The step's frame goes out, and what comes of it is heard.
    fn talk_once<N: Net>(&mut self, net: &mut N) -> Result<Next, Halt>
        ensures talks { Talks D.disk D.Counted.seen self.old self.new result
            (N.seen net.old).calls (N.seen net.new).calls }
        ensures early { EarlyAtEnd (N.seen net.new).calls N.Conn.seen }
        ensures net_fault { NetFaultBy result (N.seen net.old).faults (N.seen net.new).faults }
        ensures disk_fault { DiskFaultBy result (D.Counted.seen self.old.kept.disk).faults
            (D.Counted.seen self.new.kept.disk).faults }
        ensures door { (N.seen net.new).doors ≡ (N.seen net.old).doors }
    {
        let mut reply = [0u8; FRAME_MAX];
        let peers = Peers {
            leader: self.card.leader.as_str(),
            helper: self.card.helper.as_str(),
        };
        match talk(&self.client, &peers, net, &mut reply) {
            Ok(count) => self.take(&reply[..count]),
            Err(why) => self.miss(why),
        }
    }

    // One step.
    fn one_step<N: Net>(&mut self, net: &mut N) -> Result<Next, Halt>
        ensures steps { Steps D.disk D.Counted.seen self.old self.new result
            (N.seen net.old).calls (N.seen net.new).calls }
        ensures net_fault { NetFaultBy result (N.seen net.old).faults (N.seen net.new).faults }
        ensures disk_fault { DiskFaultBy result (D.Counted.seen self.old.kept.disk).faults
            (D.Counted.seen self.new.kept.disk).faults }
        ensures door { (N.seen net.new).doors ≡ (N.seen net.old).doors }
    {
        match self.make_ready() {
            Ok(()) => self.talk_once(net),
            Err(fault) => Err(Halt::Keep(fault)),
        }
    }

    /// Works the try off, with the same frames each time, until it has come to its end: then what is to be done next.
    /// That its last proof goes out is on the disk before its first byte goes. Where a frame wasn't answered as the
    /// sending waits for, or the disk didn't take a note, the try stands where it had come to, and may be worked on
    /// again.
    pub fn work<N: Net>(&mut self, net: &mut N) -> Result<Next, Halt>
        ensures works { Works D.disk D.Counted.seen self.old self.new result
            (N.seen net.old).calls (N.seen net.new).calls }
        ensures net_fault { NetFaultBy result (N.seen net.old).faults (N.seen net.new).faults }
        ensures disk_fault { DiskFaultBy result (D.Counted.seen self.old.kept.disk).faults
            (D.Counted.seen self.new.kept.disk).faults }
        ensures door { (N.seen net.new).doors ≡ (N.seen net.old).doors }
    {
        'steps: loop {
            if !self.place.is_under_way() {
                return Ok(self.place.next);
            }
            match self.one_step(net) {
                Ok(next) if goes_on(next) => {}
                Ok(next) => return Ok(next),
                Err(halt) => return Err(halt),
            }
        }
    }
}
