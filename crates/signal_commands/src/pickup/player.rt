// A recording's samples, picked up and heard.
ghost use Rattle.std.specs.Prelude.{◌≡◌, ◌≤◌, ◌<◌, ◌+◌, ◌*◌, ◌^◌, ◌++◌, [], ℕ, Bool, List, length, take, IfOk, IfErr, OnOk, OnErr};
ghost use Rattle.scramblers.specs.declared.mode.Mode.{Mode};
ghost use Rattle.symbol_map.specs.declared.sample.Sample.{Sample};
ghost use Rattle.outside_calls.specs.Folder.{FolderState, OnlySays, CountsStand};
ghost use Rattle.command_base.specs.Stops.{SayFails, EndCounts};
ghost use Rattle.frame_check.specs.Bits.{low_bits, octet_bits};
ghost use Rattle.line_coding.specs.MiddleReading.{bits_of_taken};
ghost use Rattle.command_base.specs.Heard.{Heard, PartlyHeard};
ghost use Rattle.signal_commands.specs.PickingUp.Playing.{Plays, IsReady, SaysSome, StopsPlay};

use command_base::{Listener, Status, Stop, hearer_of, sender_of};
use line_coding::{DEPTH, MiddleReader, Taken};
use outside_calls::{Folder, FolderFault};
use scramblers::Mode;
use shared_terms::NoMemory;
use std::alloc::Global;
use std::marker::Model;
use symbol_map::Sample;

/// A recording on its way to lines: what reads its samples from the middle of a line, and what hears their bits.
pub(crate) struct Player {
    /// Samples become bits.
    reader: MiddleReader<DEPTH>,
    /// Bits become lines.
    listener: Listener,
}

impl Drop for Player {
    // for the prover: so it is dropped by a call, and its fields are not dropped anew wherever one is.
    fn drop(self) {
        let Player {
            reader: _,
            listener: _,
        } = self;
    }
}

impl Model for Player {
    ghost use Rattle.signal_commands.specs.PickingUp.Playing.{Playing, playing_of};

    ghost Value = { Playing };

    ghost view = { λ p. playing_of p.reader p.listener };
}

/// The bits that a label gives, as the low bits of an octet, and how many.
fn taken_bits(taken: Taken) -> (u8, u32)
    ensures bits { low_bits result.1 result.0 ≡ bits_of_taken taken }
    ensures few { result.1 ≤ 4 }
{
    match taken {
        Taken::Nothing => (0, 0),
        Taken::LastBit(false) => (0, 1),
        Taken::LastBit(true) => (1, 1),
        Taken::Four(four) => (four, 4),
    }
}

/// Hears the bits that a label gives.
fn hear_taken<F: Folder>(
    folder: &mut F,
    listener: &mut Listener,
    taken: Taken,
) -> Result<(), FolderFault>
    requires { listener.old.pieces < 2 ^ 62 }
    ensures ok { (start : FolderState) (bits : List Bool) → Heard start (F.state folder.old) listener.old bits
        → OnOk result (Heard start (F.state folder.new) listener.new (bits ++ bits_of_taken taken)) }
    ensures err { (start : FolderState) (bits : List Bool) → Heard start (F.state folder.old) listener.old bits
        → OnErr result (PartlyHeard start (F.state folder.new) listener.old.sender (bits ++ bits_of_taken taken)) }
    ensures only { OnlySays (F.state folder.old) (F.state folder.new) }
    ensures fails { IfErr result (SayFails (F.state folder.old) (F.state folder.new)) }
    ensures stand { OnOk result (CountsStand (F.state folder.old) (F.state folder.new)) }
    ensures sender { listener.new.sender ≡ listener.old.sender }
    ensures pieces { listener.new.pieces ≤ listener.old.pieces + 4 }
{
    let (octet, count) = taken_bits(taken);
    listener.hear_low(folder, octet, count)
}

/// Hears the bits of an octet.
fn hear_octet<F: Folder>(
    folder: &mut F,
    listener: &mut Listener,
    octet: u8,
) -> Result<(), FolderFault>
    requires { listener.old.pieces < 2 ^ 60 }
    ensures ok { (start : FolderState) (bits : List Bool) → Heard start (F.state folder.old) listener.old bits
        → OnOk result (Heard start (F.state folder.new) listener.new (bits ++ octet_bits octet)) }
    ensures err { (start : FolderState) (bits : List Bool) → Heard start (F.state folder.old) listener.old bits
        → OnErr result (PartlyHeard start (F.state folder.new) listener.old.sender (bits ++ octet_bits octet)) }
    ensures only { OnlySays (F.state folder.old) (F.state folder.new) }
    ensures fails { IfErr result (SayFails (F.state folder.old) (F.state folder.new)) }
    ensures stand { OnOk result (CountsStand (F.state folder.old) (F.state folder.new)) }
    ensures sender { listener.new.sender ≡ listener.old.sender }
    ensures pieces { listener.new.pieces ≤ listener.old.pieces + 8 }
{
    listener.hear(folder, &[octet])
}

impl Player {
    /// A recording before its first sample. All memory is taken here.
    pub fn new(alloc: Global, mode: Mode) -> Result<Player, NoMemory>
        ensures plays { IfOk result (λ p. (start : FolderState) → Plays start start mode p []) }
        ensures ready { IfOk result (λ p. IsReady p 0) }
    {
        Ok(Player {
            reader: MiddleReader::new(alloc, mode)?,
            listener: Listener::new(sender_of(mode)),
        })
    }

    /// How many pieces were heard.
    pub fn pieces(&self) -> u64
        ensures { result ≡ self.now.listener.pieces }
    {
        self.listener.pieces()
    }

    /// Hears the bits of the labels that are released, of two at a time, once the register is full. At most one of them is left then.
    fn hear_pairs<F: Folder>(&mut self, folder: &mut F) -> Result<(), FolderFault>
        requires { self.old.listener.pieces < 2 ^ 59 }
        ensures ok { (start : FolderState) (mode : Mode) (samples : List Sample) → Plays start (F.state folder.old) mode self.old samples
            → OnOk result (Plays start (F.state folder.new) mode self.new samples) }
        ensures err { (start : FolderState) (mode : Mode) (samples : List Sample) → Plays start (F.state folder.old) mode self.old samples
            → OnErr result (SaysSome start (F.state folder.new) mode samples) }
        ensures lost { OnOk result (self.new.reader.reading.decoder.lost ≡ self.old.reader.reading.decoder.lost) }
        ensures count { OnOk result (self.new.reader.reading.decoder.count ≡ self.old.reader.reading.decoder.count) }
        ensures pieces { OnOk result (self.new.listener.pieces + 4 * length self.new.reader.reading.decoder.pending
            ≤ self.old.listener.pieces + 4 * length self.old.reader.reading.decoder.pending) }
        ensures only { OnlySays (F.state folder.old) (F.state folder.new) }
        ensures fails { IfErr result (SayFails (F.state folder.old) (F.state folder.new)) }
        ensures stand { OnOk result (CountsStand (F.state folder.old) (F.state folder.new)) }
    {
        let _few = self.reader.pending();
        while let Some(octet) = self.reader.take_octet() {
            match hear_octet(folder, &mut self.listener, octet) {
                Ok(()) => {}
                Err(fault) => return Err(fault),
            }
        }
        Ok(())
    }

    /// Hears the bits of the labels that are released, of one at a time.
    fn hear_each<F: Folder>(&mut self, folder: &mut F) -> Result<(), FolderFault>
        requires { self.old.listener.pieces < 2 ^ 60 }
        ensures ok { (start : FolderState) (mode : Mode) (samples : List Sample) → Plays start (F.state folder.old) mode self.old samples
            → OnOk result (Plays start (F.state folder.new) mode self.new samples) }
        ensures err { (start : FolderState) (mode : Mode) (samples : List Sample) → Plays start (F.state folder.old) mode self.old samples
            → OnErr result (SaysSome start (F.state folder.new) mode samples) }
        ensures taken { OnOk result (self.new.reader.reading.decoder.pending ≡ []) }
        ensures lost { OnOk result (self.new.reader.reading.decoder.lost ≡ self.old.reader.reading.decoder.lost) }
        ensures count { OnOk result (self.new.reader.reading.decoder.count ≡ self.old.reader.reading.decoder.count) }
        ensures pieces { OnOk result (self.new.listener.pieces ≤ self.old.listener.pieces + 4 * length self.old.reader.reading.decoder.pending) }
        ensures only { OnlySays (F.state folder.old) (F.state folder.new) }
        ensures fails { IfErr result (SayFails (F.state folder.old) (F.state folder.new)) }
        ensures stand { OnOk result (CountsStand (F.state folder.old) (F.state folder.new)) }
    {
        let _few = self.reader.pending();
        while let Some(taken) = self.reader.take() {
            match hear_taken(folder, &mut self.listener, taken) {
                Ok(()) => {}
                Err(fault) => return Err(fault),
            }
        }
        Ok(())
    }

    /// Hears the bits of the labels that are released.
    fn hear_released<F: Folder>(&mut self, folder: &mut F) -> Result<(), FolderFault>
        requires { self.old.listener.pieces < 2 ^ 59 }
        ensures ok { (start : FolderState) (mode : Mode) (samples : List Sample) → Plays start (F.state folder.old) mode self.old samples
            → OnOk result (Plays start (F.state folder.new) mode self.new samples) }
        ensures err { (start : FolderState) (mode : Mode) (samples : List Sample) → Plays start (F.state folder.old) mode self.old samples
            → OnErr result (SaysSome start (F.state folder.new) mode samples) }
        ensures taken { OnOk result (self.new.reader.reading.decoder.pending ≡ []) }
        ensures lost { OnOk result (self.new.reader.reading.decoder.lost ≡ self.old.reader.reading.decoder.lost) }
        ensures count { OnOk result (self.new.reader.reading.decoder.count ≡ self.old.reader.reading.decoder.count) }
        ensures pieces { OnOk result (self.new.listener.pieces ≤ self.old.listener.pieces + 516) }
        ensures only { OnlySays (F.state folder.old) (F.state folder.new) }
        ensures fails { IfErr result (SayFails (F.state folder.old) (F.state folder.new)) }
        ensures stand { OnOk result (CountsStand (F.state folder.old) (F.state folder.new)) }
    {
        let _few = self.reader.pending();
        match self.hear_pairs(folder) {
            Ok(()) => self.hear_each(folder),
            Err(fault) => Err(fault),
        }
    }

    /// As many of the samples as there is room for, at least one: how many. The lines of the pieces are printed that end in the bits that they
    /// release.
    pub fn push_some<F: Folder>(
        &mut self,
        folder: &mut F,
        mode: Mode,
        samples: &[Sample],
    ) -> Result<usize, Stop>
        requires some { 1 ≤ length samples.now }
        requires taken { self.old.reader.reading.decoder.pending ≡ [] }
        requires count { self.old.reader.reading.decoder.count + length samples.now ≤ 2 ^ 56 }
        requires pieces { self.old.listener.pieces < 2 ^ 59 }
        ensures ok { (start : FolderState) (past : List Sample) → Plays start (F.state folder.old) mode self.old past
            → IfOk result (λ heard. Plays start (F.state folder.new) mode self.new (past ++ take heard samples.now)) }
        ensures err { (start : FolderState) (past : List Sample) → Plays start (F.state folder.old) mode self.old past
            → IfErr result (StopsPlay start (F.state folder.new) mode (past ++ samples.now)) }
        ensures within { IfOk result (λ heard. (1 ≤ heard) × (heard ≤ length samples.now)) }
        ensures ready { (most : ℕ) → IsReady self.old most → IfOk result (λ heard. IsReady self.new (most + heard)) }
        ensures only { OnlySays (F.state folder.old) (F.state folder.new) }
        ensures counts { (inputs : List (List ℕ)) → EndCounts (F.state folder.old) (F.state folder.new) inputs [] result }
    {
        let pushed = self.reader.push_some(samples);
        match self.hear_released(folder) {
            Ok(()) => {}
            Err(fault) => return Err(Stop::Say(fault)),
        }
        match pushed {
            Ok(heard) => Ok(heard),
            Err(lost) => Err(Stop::Own(Status::LineLost {
                role: hearer_of(mode),
                symbol: lost.symbol,
            })),
        }
    }
}
