// What the ends of a run send, put into recordings turn by turn.
ghost use Rattle.std.specs.Prelude.{◌≡◌, ◌∷◌, [], ◌++◌, ℕ, Bool, List, OnOk, IfErr, option_copied};
ghost use Rattle.outside_calls.specs.Folder.{OnlyWrites};
ghost use Rattle.outside_calls.specs.Outputs.{AreApart, OnlyPuts};
ghost use Rattle.scramblers.specs.declared.mode.Mode.{Mode};
ghost use Rattle.bit_stuffing.specs.BitSlot.{line_bits};
ghost use Rattle.shared_terms.specs.declared.role.Role.{Role};
ghost use Rattle.shared_terms.specs.Both.{Both};
ghost use Rattle.noise_script.specs.Script.{ScriptValue};
ghost use Rattle.link_run.specs.Run.{Accounts, Turn};
ghost use Rattle.line_run.specs.Sampled.{Wire};
ghost use Rattle.line_run.specs.Scripted.{wire_of};
ghost use Rattle.line_world.specs.World.{HasSent, WorldAfter, script_of};
ghost use Rattle.line_run.specs.Recorded.{tapes_of};
ghost use Rattle.line_world.specs.Taping.{RecordsBits, TapeStands, KeepsTape, TakesSlot, KeepTapes, TakeTurn, tape_names};
ghost use Rattle.line_world.specs.Turn.{CountsOver, IsWriting};

use crate::World;
use bit_stuffing::BitSlot;
use frame_check::Octets;
use line_coding::Modulator;
use line_run::RunFault;
use outside_calls::Folder;
use recordings::octets_of;
use sample_line::mode_of;
use shared_terms::{Both, Role};
use stations::folder_fault;

/// The octets of the samples of the largest slot: four for each of its symbols.
const RECORDED_SLOT: usize = 10_460;

/// A recording of what an end sends: all its slots are one stream of samples, before the line adds anything to them.
#[derive(Drop)]
pub struct Tape<'a> {
    /// The recording's name.
    name: &'a str,
    /// The modulator that has made the samples of all slots so far.
    modulator: Modulator,
    /// The samples of the latest slot, in a room that isn't cleared for each slot anew.
    octets: Octets<RECORDED_SLOT>,
}

/// Writes the octets of a slot's samples, which go behind those of all slots before.
fn write_samples(modulator: &mut Modulator, slot: &BitSlot, out: &mut Octets<RECORDED_SLOT>)
    requires { out.old ≡ [] }
    ensures { (mode : Mode) (bits : List Bool) (octets : List ℕ) → RecordsBits mode modulator.old bits octets
        → RecordsBits mode modulator.new (bits ++ line_bits slot.now) (octets ++ out.new) }
{
    for place in 0..slot.len() {
        let sample = modulator.push(slot.quad(place));
        out.extend(&octets_of(sample));
    }
}

impl<'a> Tape<'a> {
    ghost use Rattle.line_world.specs.declared.tape.Tape.{Tape};

    /// A tape of this role before the first turn, which writes behind what this name holds.
    pub fn new(name: &'a str, role: Role) -> Tape<'a>
        ensures name { result.name.now ≡ name.now }
        ensures stands { (c : Wire) → TapeStands result c role [] [] }
    {
        Tape {
            name,
            modulator: Modulator::new(mode_of(role)),
            octets: Octets::new(),
        }
    }

    /// Makes the samples of the slot of one turn more.
    fn make(&mut self, slot: Option<&BitSlot>)
        ensures stands { (script : ScriptValue) (role : Role) (ts : List Turn) (t : Turn) (body : List ℕ)
            → HasSent (option_copied slot.entry) script role ts t → TapeStands self.old (wire_of script) role ts body
            → TapeStands self.new (wire_of script) role (t ∷ ts) (body ++ self.new.octets) }
        ensures name { self.new.name.now ≡ self.old.name.now }
    {
        self.octets.clear();
        match slot {
            Some(slot) => write_samples(&mut self.modulator, slot, &mut self.octets),
            None => {}
        }
    }

    /// The samples of a slot go behind the recording, with one append.
    fn record<F: Folder>(&mut self, slot: Option<&BitSlot>, folder: &mut F) -> Result<(), RunFault>
        ensures records { (script : ScriptValue) (role : Role) (ts : List Turn) (t : Turn)
            → HasSent (option_copied slot.entry) script role ts t → KeepsTape self.old (F.state folder.old) (wire_of script) role ts
            → TakesSlot self.new (F.state folder.new) (wire_of script) role ts t result }
        ensures name { self.new.name.now ≡ self.old.name.now }
        ensures only { OnlyWrites (F.state folder.old) (F.state folder.new) self.old.name.now }
        ensures came { F.came folder.old folder.new }
        ensures counts { CountsOver (F.state folder.old) (F.state folder.new) [] (self.old.name.now ∷ []) result }
        ensures write { IfErr result IsWriting }
    {
        self.make(slot);
        match folder.append(self.name, self.octets.as_slice()) {
            Ok(()) => Ok(()),
            Err(fault) => Err(folder_fault(RunFault::WriteFault, RunFault::NoMemory, fault)),
        }
    }
}

/// What both ends sent in the last turn goes behind their recordings, the originator's first.
fn record_both<F: Folder>(
    tapes: &mut Both<Tape<'_>>,
    world: &World,
    folder: &mut F,
) -> Result<(), RunFault>
    requires apart { AreApart (tapes.old.orig.name.now ∷ tapes.old.answ.name.now ∷ []) }
    ensures records { (files : Both (List ℕ)) (ts : List Turn) (t : Turn) (ends : Accounts) → WorldAfter world.now files (t ∷ ts) ends
        → KeepTapes (Some tapes.old) (F.state folder.old) (wire_of (script_of world.now)) ts
        → TakeTurn (Some tapes.new) (F.state folder.new) (wire_of (script_of world.now)) ts t result }
    ensures orig { tapes.new.orig.name.now ≡ tapes.old.orig.name.now }
    ensures answ { tapes.new.answ.name.now ≡ tapes.old.answ.name.now }
    ensures only { OnlyPuts (F.state folder.old) (F.state folder.new) (tapes.old.orig.name.now ∷ tapes.old.answ.name.now ∷ []) }
    ensures came { F.came folder.old folder.new }
    ensures counts { CountsOver (F.state folder.old) (F.state folder.new) [] (tapes.old.orig.name.now ∷ tapes.old.answ.name.now ∷ []) result }
    ensures write { IfErr result IsWriting }
{
    match tapes.orig.record(world.sent(Role::Originator), folder) {
        Ok(()) => {}
        Err(fault) => return Err(fault),
    }
    tapes.answ.record(world.sent(Role::Answerer), folder)
}

/// What both ends sent in the last turn goes behind their recordings, where there are any.
pub(crate) fn record_turn<F: Folder>(
    tapes: &mut Option<Both<Tape<'_>>>,
    world: &World,
    folder: &mut F,
) -> Result<(), RunFault>
    requires apart { AreApart (tapes_of (tape_names tapes.old)) }
    ensures records { (files : Both (List ℕ)) (ts : List Turn) (t : Turn) (ends : Accounts) → WorldAfter world.now files (t ∷ ts) ends
        → KeepTapes tapes.old (F.state folder.old) (wire_of (script_of world.now)) ts
        → TakeTurn tapes.new (F.state folder.new) (wire_of (script_of world.now)) ts t result }
    ensures names { tape_names tapes.new ≡ tape_names tapes.old }
    ensures only { OnlyPuts (F.state folder.old) (F.state folder.new) (tapes_of (tape_names tapes.old)) }
    ensures came { F.came folder.old folder.new }
    ensures counts { CountsOver (F.state folder.old) (F.state folder.new) [] (tapes_of (tape_names tapes.old)) result }
    ensures write { IfErr result IsWriting }
{
    match tapes {
        None => Ok(()),
        Some(tapes) => record_both(tapes, world, folder),
    }
}
