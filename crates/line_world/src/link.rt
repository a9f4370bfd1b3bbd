// The two ends of a run, each with its user.
ghost use Rattle.std.specs.Prelude.{◌≡◌, ℕ, ◌+◌, ◌<◌, ◌≤◌, ◌^◌, List, length, true, is_ok, IfOk, OnOk, OnErr, IsErrOf};
ghost use Rattle.outside_calls.specs.Folder.{OnlyReads, FaultsStand, CountsStand};
ghost use Rattle.outside_calls.specs.Outputs.{AreApart};
ghost use Rattle.outside_calls.specs.Outputs.{AddEach, AddPart, OnlyPuts, SomeCause};
ghost use Rattle.lapm_link.specs.Fits.{IsSetUp};
ghost use Rattle.lapm_link.specs.Stands.{undelivered_of};
ghost use Rattle.shared_terms.specs.Both.{Both, of};
ghost use Rattle.shared_terms.specs.declared.role.Role.{Role};
ghost use Rattle.noise_script.specs.Script.{ScriptValue};
ghost use Rattle.lapm_frames.specs.Sendable.{IsSendable};
ghost use Rattle.link_account.specs.Numbers.{IsNumbered};
ghost use Rattle.link_account.specs.Account.{Account, fresh, after_given, after_busy, given_break, check_of};
ghost use Rattle.link_run.specs.End.{delivered, asked, is_busy, is_closed, is_released, has_finished};
ghost use Rattle.link_run.specs.Run.{Accounts, arrival, both_finished, start};
ghost use Rattle.line_run.specs.Scripted.{setup_of, breaks_of, busy_of, party_of, link_of};
ghost use Rattle.stations.specs.Station.{Stands, IsIdle, IsCounted};
ghost use Rattle.line_run.specs.Names.{inputs_of, outputs_of, written};
ghost use Rattle.line_world.specs.Link.{HearsOn};
ghost use Rattle.link_account.specs.Hear.{hear};

use frame_check::Check;
use lapm_frames::Heard;
use lapm_link::{LinkFault, Phase, Sent, Setup};
use line_run::Names;
use line_run::laws::scripts_make_links;
use noise_script::Script;
use outside_calls::{Folder, FolderFault};
use shared_terms::{Both, NoMemory, RUN_FILE_LIMIT, Role};
use stations::Station;
use std::alloc::Global;

/// Two stations.
pub struct Link {
    /// The originator with its user.
    pub orig: Station,
    /// The answerer with its user.
    pub answ: Station,
}

impl Drop for Link {
    // for the prover: so it is dropped by a call, and its fields are not dropped anew wherever one is.
    fn drop(self) {
        let Link { orig: _, answ: _ } = self;
    }
}

/// An end that breaks as it is to speak, and why.
#[derive(Clone, Copy)]
pub struct Breaking {
    /// The end that gave up.
    pub role: Role,
    /// Why.
    pub fault: LinkFault,
}

/// How many turns a timer's period has beside twice the way there and back, for an answer that waits at its sender behind others.
const WAIT: u32 = 16;

/// How an end of that role is set up, whose timer has so many turns.
fn setup(script: &Script, role: Role) -> Setup
    ensures value { result ≡ setup_of script.now role }
    ensures set_up { IsSetUp result }
{
    let delays = u32::from(script.delay(Role::Originator))
        + u32::from(script.delay(Role::Answerer));
    Setup {
        role,
        offer: script.offer(role),
        tries: script.tries(),
        period: 2 * delays + WAIT,
    }
}

/// What happens to a station's end behind its offers: it is told whether its user is busy, and asked for the next break, unless the link
/// is taken down.
fn serve(station: &mut Station, script: &Script, role: Role, turn: u64, released: bool)
    requires turn { turn < 2 ^ 40 }
    requires counted { IsCounted station.old (turn + 1) turn }
    ensures stands { (file : List ℕ) (a : Account) → Stands station.old file a
        → Stands station.new file (asked turn released (breaks_of script.now role) (after_busy (is_busy turn (busy_of script.now role)) a)) }
    ensures idle { IsIdle station.old → IsIdle station.new }
    ensures counted { IsCounted station.new (turn + 1) (turn + 1) }
{
    scripts_make_links();
    station.set_busy(script.busy(role, turn));
    if !released {
        let next = script.break_line(role, station.breaks());
        station.ask(turn, next);
    }
}

/// Whether an originator in that phase was told to release.
fn is_released(phase: Phase) -> bool
    ensures { result ≡ is_released phase }
{
    match phase {
        Phase::Releasing | Phase::Closed => true,
        _ => false,
    }
}

/// Whether a station's end needs the link no more.
fn is_finished(station: &Station, script: &Script, role: Role, turn: u64) -> bool
    ensures { (files : Both (List ℕ)) (file : List ℕ) (a : Account) → Stands station.now file a → result ≡ has_finished (party_of script.now files role).user turn a }
{
    scripts_make_links();
    station.is_finished(turn, script.break_line(role, station.breaks()))
}

/// An end hears what an own end sent, which breaks no link.
fn hear_well(station: &mut Station, turn: u64, heard: &Heard)
    requires turn { turn < 2 ^ 40 }
    requires numbers { IsNumbered (arrival heard.now) }
    requires idle { IsIdle station.old }
    requires counted { IsCounted station.old turn turn }
    requires well { (file : List ℕ) × (a : Account) × Stands station.old file a × (is_ok (hear turn (arrival heard.now) a) ≡ true) }
    ensures hears { (file : List ℕ) (a : Account) → Stands station.old file a → is_ok (hear turn (arrival heard.now) a) ≡ true → HearsOn station.new file a turn (arrival heard.now) }
    ensures counted { IsCounted station.new (turn + 1) turn }
{
    match station.hear(turn, heard) {
        Ok(()) => {}
        Err(_) => unreachable!(),
    }
}

impl Link {
    ghost use Rattle.line_world.specs.declared.link.Link.{Link};
    ghost use Rattle.line_world.specs.Link.{LinkStands, AreIdle, AreCounted, HaveDelivered, AreWithin, HearsBoth, HearsWell, SuppliesBoth, SpeaksBoth, served_on, both_ends, octets_of};

    /// Both ends before their first turn, set up by a script.
    pub fn new(alloc: Global, script: &Script) -> Result<Link, NoMemory>
        ensures stands { IfOk result (λ link. (files : Both (List ℕ)) → LinkStands link files (start (link_of script.now files))) }
        ensures idle { IfOk result AreIdle }
        ensures counted { IfOk result (λ link. AreCounted link 0 0) }
    {
        Ok(Link {
            orig: Station::new(alloc, setup(script, Role::Originator))?,
            answ: Station::new(alloc, setup(script, Role::Answerer))?,
        })
    }

    /// The checks of both ends' frames with numbers: with these each hears, and sends.
    pub fn checks(&self) -> Both<Check>
        ensures { (files : Both (List ℕ)) (ends : Accounts) → LinkStands self.now files ends → (role : Role) → of role result ≡ check_of (of role ends) }
    {
        Both {
            orig: self.orig.check(),
            answ: self.answ.check(),
        }
    }

    /// Both ends hear.
    pub fn hear(&mut self, turn: u64, heard: &Both<Heard>)
        requires turn { turn < 2 ^ 40 }
        requires orig_numbers { IsNumbered (arrival heard.now.orig) }
        requires answ_numbers { IsNumbered (arrival heard.now.answ) }
        requires idle { AreIdle self.old }
        requires counted { AreCounted self.old turn turn }
        requires well { (files : Both (List ℕ)) × (ends : Accounts) × LinkStands self.old files ends × HearsWell ends turn (arrival heard.now.orig) (arrival heard.now.answ) }
        ensures hears { (files : Both (List ℕ)) (ends : Accounts) → LinkStands self.old files ends → HearsWell ends turn (arrival heard.now.orig) (arrival heard.now.answ)
            → HearsBoth self.new files ends turn (arrival heard.now.orig) (arrival heard.now.answ) }
        ensures counted { AreCounted self.new (turn + 1) turn }
    {
        hear_well(&mut self.orig, turn, &heard.orig);
        hear_well(&mut self.answ, turn, &heard.answ);
    }

    /// What both ends took is appended to the received files, the originator's first.
    pub fn deliver<F: Folder>(
        &mut self,
        folder: &mut F,
        names: &Names<'_>,
    ) -> Result<(), FolderFault>
        requires apart { AreApart (outputs_of (written names.now)) }
        ensures stands { OnOk result ((files : Both (List ℕ)) (ends : Accounts) → LinkStands self.old files ends → LinkStands self.new files (both_ends delivered ends)) }
        ensures delivered { OnOk result (HaveDelivered self.new) }
        ensures counted { OnOk result ((heard asked : ℕ) → AreCounted self.old heard asked → AreCounted self.new heard asked) }
        ensures ok { OnOk result ((files : Both (List ℕ)) (ends : Accounts) → LinkStands self.old files ends → AddEach (F.state folder.old) (F.state folder.new) (outputs_of (written names.now)) (octets_of ends)) }
        ensures err { OnErr result ((files : Both (List ℕ)) (ends : Accounts) → LinkStands self.old files ends → AddPart (F.state folder.old) (F.state folder.new) (outputs_of (written names.now)) (octets_of ends)) }
        ensures only { OnlyPuts (F.state folder.old) (F.state folder.new) (outputs_of (written names.now)) }
        ensures cause { SomeCause (F.state folder.old).write_faults (F.state folder.new).write_faults (outputs_of (written names.now)) (F.state folder.old).refusals (F.state folder.new).refusals result }
        ensures stand { OnOk result (CountsStand (F.state folder.old) (F.state folder.new)) }
        ensures spared { IsErrOf result FolderFault.NoMemory → FaultsStand (F.state folder.old) (F.state folder.new) }
        ensures came { F.came folder.old folder.new }
    {
        match self.orig.deliver(folder, names.got_o) {
            Ok(()) => {}
            Err(fault) => return Err(fault),
        }
        match self.answ.deliver(folder, names.got_a) {
            Ok(()) => Ok(()),
            Err(fault) => Err(fault),
        }
    }

    /// The lengths of the breaks that came, for both users.
    pub fn given_breaks(&mut self) -> Both<Option<u8>>
        requires { HaveDelivered self.old }
        ensures answer { (files : Both (List ℕ)) (ends : Accounts) → LinkStands self.old files ends → (result.orig ≡ given_break ends.orig) × (result.answ ≡ given_break ends.answ) }
        ensures stands { (files : Both (List ℕ)) (ends : Accounts) → LinkStands self.old files ends → LinkStands self.new files (both_ends after_given ends) }
        ensures idle { AreIdle self.new }
        ensures counted { (heard asked : ℕ) → AreCounted self.old heard asked → AreCounted self.new heard asked }
    {
        let orig = self.orig.given_break();
        let answ = self.answ.given_break();
        Both { orig, answ }
    }

    /// The originator is closed: the run is done.
    pub fn is_closed(&self) -> bool
        ensures { (files : Both (List ℕ)) (ends : Accounts) → LinkStands self.now files ends → result ≡ is_closed ends.orig.phase }
    {
        self.orig.phase() == Phase::Closed
    }

    /// The segments that both ends want are read from their users' files, the originator's first.
    pub fn supply<F: Folder>(
        &mut self,
        folder: &mut F,
        names: &Names<'_>,
    ) -> Result<(), FolderFault>
        requires stands { (files : Both (List ℕ)) × (ends : Accounts) × LinkStands self.old files ends × AreWithin files }
        ensures stands { OnOk result ((files : Both (List ℕ)) (ends : Accounts) → LinkStands self.old files ends → AreWithin files
            → SuppliesBoth (F.state folder.old) (written names.now) self.new files ends) }
        ensures idle { AreIdle self.old → AreIdle self.new }
        ensures counted { (heard asked : ℕ) → AreCounted self.old heard asked → AreCounted self.new heard asked }
        ensures only { OnlyReads (F.state folder.old) (F.state folder.new) }
        ensures cause { SomeCause (F.state folder.old).read_faults (F.state folder.new).read_faults (inputs_of (written names.now)) (F.state folder.old).refusals (F.state folder.new).refusals result }
        ensures stand { OnOk result (CountsStand (F.state folder.old) (F.state folder.new)) }
        ensures spared { IsErrOf result FolderFault.NoMemory → FaultsStand (F.state folder.old) (F.state folder.new) }
        ensures came { F.came folder.old folder.new }
    {
        match self.orig.supply(folder, names.orig, RUN_FILE_LIMIT) {
            Ok(()) => {}
            Err(fault) => return Err(fault),
        }
        match self.answ.supply(folder, names.answ, RUN_FILE_LIMIT) {
            Ok(()) => Ok(()),
            Err(fault) => Err(fault),
        }
    }

    /// Both ends are told whether their users are busy, and asked for the next break of each, unless the originator was told to release.
    pub fn serve(&mut self, script: &Script, turn: u64)
        requires turn { turn < 2 ^ 40 }
        requires counted { AreCounted self.old (turn + 1) turn }
        ensures stands { (files : Both (List ℕ)) (ends : Accounts) → LinkStands self.old files ends → LinkStands self.new files (served_on script.now turn ends) }
        ensures idle { AreIdle self.old → AreIdle self.new }
        ensures counted { AreCounted self.new (turn + 1) (turn + 1) }
    {
        let released = is_released(self.orig.phase());
        serve(&mut self.orig, script, Role::Originator, turn, released);
        serve(&mut self.answ, script, Role::Answerer, turn, released);
    }

    /// Both ends need the link no more.
    fn are_finished(&self, script: &Script, turn: u64) -> bool
        ensures { (files : Both (List ℕ)) (ends : Accounts) → LinkStands self.now files ends → result ≡ both_finished (link_of script.now files) turn ends }
    {
        is_finished(&self.orig, script, Role::Originator, turn)
            && is_finished(&self.answ, script, Role::Answerer, turn)
    }

    /// What both ends send in this turn. The originator is told to release where both need the link no more; where both break it counts.
    pub fn speak(&mut self, script: &Script, turn: u64) -> Result<Both<Sent>, Breaking>
        requires { turn < 2 ^ 40 }
        ensures speaks { (files : Both (List ℕ)) (ends : Accounts) → LinkStands self.old files ends → SpeaksBoth self.new files (link_of script.now files) turn ends result }
        ensures orig_sendable { IfOk result (λ sent. IsSendable sent.orig) }
        ensures answ_sendable { IfOk result (λ sent. IsSendable sent.answ) }
        ensures idle { OnOk result (AreIdle self.old → AreIdle self.new) }
        ensures counted { OnOk result ((heard asked : ℕ) → AreCounted self.old heard asked → AreCounted self.new heard asked) }
    {
        let release = self.are_finished(script, turn);
        let mut orig = Sent::Flags;
        let mut answ = Sent::Flags;
        match self.orig.speak(turn, release, &mut orig) {
            Ok(()) => {}
            Err(fault) => {
                return Err(Breaking {
                    role: Role::Originator,
                    fault,
                });
            }
        }
        match self.answ.speak(turn, false, &mut answ) {
            Ok(()) => Ok(Both { orig, answ }),
            Err(fault) => Err(Breaking {
                role: Role::Answerer,
                fault,
            }),
        }
    }
}
