// An end of the link with its user.

ghost use Rattle.lapm_link.specs.Fits.{IsSetUp};

use crate::segment::read_segment;
use frame_check::{Check, INFO, Info};
use lapm_link::{AnyEnd, Arrives, Broken, Closed, Detecting, LinkFault, Phase, Sent, Setup};
use link_run::laws::{
    pieces_are_offered_until_none_is_wanted, segments_are_offered_as_they_are_read,
};
use outside_calls::{Folder, FolderFault};
use shared_terms::NoMemory;
use std::alloc::Global;
use std::mem::replace;

/// An end with its user.
pub struct Station {
    /// The end of the link.
    end: AnyEnd,
    /// How many of its user's breaks the end has taken.
    breaks: usize,
    /// The setup that the end was made with.
    setup: Setup,
    ghost set_up: { IsSetUp setup },
}

impl Drop for Station {
    // for the prover: so it is dropped by a call, and its fields are not dropped anew wherever one is.
    fn drop(self) {
        let Station {
            end: _,
            breaks: _,
            setup: _,
        } = self;
    }
}

impl Station {
    ghost use Rattle.std.specs.Prelude.{◌≡◌, ℕ, ◌+◌, ◌≤◌, ◌<◌, ◌^◌, List, length, IfOk, OnOk, OnErr, IsErrOf, not, ◌&&◌, ◌||◌};
    ghost use Rattle.std.specs.List.{concat};
    ghost use Rattle.std.specs.Option.{option_map};
    ghost use Rattle.outside_calls.specs.Folder.{OnlyReads, OnlyWrites, HasCause, Adds, PartlyAppended, FaultsStand, CountsStand};
    ghost use Rattle.lapm_frames.specs.Sendable.{IsSendable};
    ghost use Rattle.lapm_link.specs.Stands.{TakesNothing, undelivered_of, given_up};
    ghost use Rattle.link_account.specs.Numbers.{IsNumbered};
    ghost use Rattle.link_account.specs.Account.{Account, fresh, after_given, after_busy, given_break, is_done, break_waits, check_of};
    ghost use Rattle.link_account.specs.Hear.{hear};
    ghost use Rattle.link_account.specs.Speak.{speak};
    ghost use Rattle.link_run.specs.End.{deliveries, delivered, asked_at, is_ready};
    ghost use Rattle.stations.specs.Station.{Stands, HearsAs, SpeaksAs, Supplies, IsKept, IsIdle, IsCounted, break_line_of};

    /// A station before its first turn.
    pub fn new(alloc: Global, setup: Setup) -> Result<Station, NoMemory>
        requires { IsSetUp setup }
        ensures stands { IfOk result (λ station. (file : List ℕ) → Stands station file (fresh setup)) }
        ensures idle { IfOk result IsIdle }
        ensures counted { IfOk result (λ station. IsCounted station 0 0) }
    {
        segments_are_offered_as_they_are_read();
        let end = Detecting::new(alloc, setup)?;
        Ok(Station {
            end: AnyEnd::Detecting(end),
            breaks: 0,
            setup,
        })
    }

    /// Hands the end out.
    fn take_end(&mut self) -> AnyEnd
        ensures end { result ≡ self.old.end }
        ensures breaks { self.new.breaks ≡ self.old.breaks }
    {
        replace(&mut self.end, AnyEnd::Closed(Closed::new(self.setup)))
    }

    /// Puts back what the end became, which is closed after a fault.
    fn keep_end(&mut self, became: Result<AnyEnd, Broken>) -> Result<(), LinkFault>
        ensures kept { IsKept became self.new result }
        ensures breaks { self.new.breaks ≡ self.old.breaks }
    {
        match became {
            Ok(end) => {
                self.end = end;
                Ok(())
            }
            Err(Broken { fault, end }) => {
                self.end = AnyEnd::Closed(end);
                Err(fault)
            }
        }
    }

    /// Hears what arrives. After a fault the end is closed and owes nothing, and its user's breaks are counted as before.
    pub fn hear<A: Arrives>(&mut self, turn: u64, arrived: &A) -> Result<(), LinkFault>
        requires turn { turn < 2 ^ 40 }
        requires numbers { IsNumbered (A.arrival arrived.now) }
        requires idle { IsIdle self.old }
        requires counted { IsCounted self.old turn turn }
        ensures hears { (file : List ℕ) (a : Account) → Stands self.old file a → HearsAs (hear turn (A.arrival arrived.now) a) file self.new result }
        ensures counted { OnOk result (IsCounted self.new (turn + 1) turn) }
        ensures over { OnErr result ((file : List ℕ) (a : Account) → Stands self.old file a → Stands self.new file (given_up a)) }
    {
        segments_are_offered_as_they_are_read();
        let became = self.take_end().hear(turn, arrived);
        self.keep_end(became)
    }

    /// Appends what the end took to the file of that name.
    pub fn deliver<F: Folder>(&mut self, folder: &mut F, name: &str) -> Result<(), FolderFault>
        ensures stands { OnOk result ((file : List ℕ) (a : Account) → Stands self.old file a → Stands self.new file (delivered a)) }
        ensures delivered { OnOk result (undelivered_of self.new.end ≡ 0) }
        ensures takes_nothing { TakesNothing self.old.end self.new.end }
        ensures breaks { self.new.breaks ≡ self.old.breaks }

        ensures ok { OnOk result ((file : List ℕ) (a : Account) → Stands self.old file a → Adds (F.state folder.old) (F.state folder.new) name.now (concat (deliveries a))) }
        ensures err { OnErr result ((file : List ℕ) (a : Account) → Stands self.old file a → PartlyAppended (F.state folder.old) (F.state folder.new) name.now (concat (deliveries a))) }
        ensures only { OnlyWrites (F.state folder.old) (F.state folder.new) name.now }
        ensures cause { HasCause ((F.state folder.old).write_faults name.now) ((F.state folder.new).write_faults name.now) (F.state folder.old).refusals (F.state folder.new).refusals result }
        ensures stand { OnOk result (CountsStand (F.state folder.old) (F.state folder.new)) }
        ensures spared { IsErrOf result FolderFault.NoMemory → FaultsStand (F.state folder.old) (F.state folder.new) }
        ensures came { F.came folder.old folder.new }
    {
        let mut segment = Info::new();
        loop {
            if !self.end.deliver(&mut segment) {
                return Ok(());
            }
            match folder.append(name, segment.as_slice()) {
                Ok(()) => {}
                Err(fault) => return Err(fault),
            }
        }
    }

    /// Hands over the length of the break that the other end's user asked for, in units of 10 ms, where one came.
    pub fn given_break(&mut self) -> Option<u8>
        ensures answer { (file : List ℕ) (a : Account) → Stands self.old file a → result ≡ given_break a }
        ensures stands { (file : List ℕ) (a : Account) → Stands self.old file a → Stands self.new file (after_given a) }
        ensures idle { undelivered_of self.old.end ≡ 0 → IsIdle self.new }
        ensures counted { (heard asked : ℕ) → IsCounted self.old heard asked → IsCounted self.new heard asked }
    {
        self.end.given_break()
    }

    /// Reads the user's file as far as the end wants it. A file ends at its limit.
    pub fn supply<F: Folder>(
        &mut self,
        folder: &mut F,
        name: &str,
        limit: u64,
    ) -> Result<(), FolderFault>
        requires limit { limit < 2 ^ 56 }
        requires stands { (file : List ℕ) × (a : Account) × Stands self.old file a × (length file ≤ limit) }
        ensures stands { OnOk result ((file : List ℕ) (a : Account) → Stands self.old file a → length file ≤ limit → Supplies (F.state folder.old) name.now limit file a self.new) }
        ensures idle { IsIdle self.old → IsIdle self.new }
        ensures counted { (heard asked : ℕ) → IsCounted self.old heard asked → IsCounted self.new heard asked }

        ensures only { OnlyReads (F.state folder.old) (F.state folder.new) }
        ensures cause { HasCause ((F.state folder.old).read_faults name.now) ((F.state folder.new).read_faults name.now) (F.state folder.old).refusals (F.state folder.new).refusals result }
        ensures stand { OnOk result (CountsStand (F.state folder.old) (F.state folder.new)) }
        ensures spared { IsErrOf result FolderFault.NoMemory → FaultsStand (F.state folder.old) (F.state folder.new) }
        ensures came { F.came folder.old folder.new }
    {
        segments_are_offered_as_they_are_read();
        pieces_are_offered_until_none_is_wanted();
        let mut segment = [0u8; INFO];
        loop {
            let number = match self.end.wants() {
                Some(number) => number,
                None => return Ok(()),
            };
            let size = self.end.piece();
            match read_segment(folder, name, number, size, limit, &mut segment) {
                Ok(count) => self.end.offer(&segment[..count]),
                Err(fault) => return Err(fault),
            }
        }
    }

    /// Tells the end whether its user asks for a pause.
    pub fn set_busy(&mut self, busy: bool)
        ensures stands { (file : List ℕ) (a : Account) → Stands self.old file a → Stands self.new file (after_busy busy a) }
        ensures idle { IsIdle self.old → IsIdle self.new }
        ensures counted { (heard asked : ℕ) → IsCounted self.old heard asked → IsCounted self.new heard asked }
    {
        self.end.set_busy(busy);
    }

    /// How many of its user's breaks the end has taken: the index of the one that is to be asked for next.
    pub fn breaks(&self) -> usize
        ensures { (file : List ℕ) (a : Account) → Stands self.now file a → result ≡ length a.own_breaks.lengths }
    {
        self.breaks
    }

    /// Asks the end for its user's next break, where the turn of that has come: the turn from which on it is asked for, and its length in
    /// units of 10 ms.
    pub fn ask(&mut self, turn: u64, next: Option<(u64, u8)>)
        requires turn { turn < 2 ^ 40 }
        requires counted { IsCounted self.old (turn + 1) turn }
        ensures stands { (file : List ℕ) (a : Account) → Stands self.old file a → Stands self.new file (asked_at turn (option_map break_line_of next) a) }
        ensures idle { IsIdle self.old → IsIdle self.new }
        ensures counted { IsCounted self.new (turn + 1) (turn + 1) }
    {
        let Some((from, length)) = next else {
            return;
        };
        if turn < from {
            return;
        }
        if self.end.ask_break(turn, length) {
            self.breaks += 1;
        }
    }

    /// Whether the end needs the link no more: its file is read to its end and wholly acknowledged, and no break waits or is ready.
    pub fn is_finished(&self, turn: u64, next: Option<(u64, u8)>) -> bool
        ensures { (file : List ℕ) (a : Account) → Stands self.now file a
            → result ≡ is_done a && not (break_waits a || is_ready turn (option_map break_line_of next)) }
    {
        let is_ready = match next {
            Some((from, _)) => from <= turn,
            None => false,
        };
        self.end.whole() && !(self.end.break_waiting() || is_ready)
    }

    /// What the end sends in this turn. `release` tells a Connected originator to take the link down. After a fault the end is closed and
    /// owes nothing, its user's breaks are counted as before, and `sent` is as it was.
    pub fn speak(&mut self, turn: u64, release: bool, sent: &mut Sent) -> Result<(), LinkFault>
        requires { turn < 2 ^ 40 }
        ensures speaks { (file : List ℕ) (a : Account) → Stands self.old file a → SpeaksAs (speak turn release a) file sent.new self.new result }
        ensures sendable { OnOk result (IsSendable sent.new) }
        ensures idle { OnOk result (IsIdle self.old → IsIdle self.new) }
        ensures counted { OnOk result ((heard asked : ℕ) → IsCounted self.old heard asked → IsCounted self.new heard asked) }
        ensures over { OnErr result ((file : List ℕ) (a : Account) → Stands self.old file a → Stands self.new file (given_up a)) }
        ensures unchanged { OnErr result (sent.new ≡ sent.old) }
    {
        segments_are_offered_as_they_are_read();
        let became = self.take_end().speak(turn, release, sent);
        self.keep_end(became)
    }

    /// The phase that the end is in.
    pub fn phase(&self) -> Phase
        ensures { (file : List ℕ) (a : Account) → Stands self.now file a → result ≡ a.phase }
    {
        self.end.phase()
    }

    /// The check of the frames with numbers that the end sends and hears.
    pub fn check(&self) -> Check
        ensures { (file : List ℕ) (a : Account) → Stands self.now file a → result ≡ check_of a }
    {
        self.end.check()
    }
}
