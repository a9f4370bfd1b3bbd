// What one who hears the line knows of an end.
ghost use Rattle.std.specs.Prelude.{◌≡◌, ◌≤◌, ◌<◌, ◌+◌, ◌*◌, ◌^◌, ◌++◌, ◌||◌, ℕ, Bool, List, [], length, drop, IfOk, OnOk, OnErr, IsErrOf};
ghost use Rattle.std.specs.List.{concat};
ghost use Rattle.outside_calls.specs.Folder.{Adds, PartlyAppended, OnlyWrites, HasCause, CountsStand, FaultsStand};
ghost use Rattle.shared_terms.specs.Role.{other};
ghost use Rattle.xid_params.specs.declared.terms.Terms.{Terms as TermsValue};
ghost use Rattle.lapm_frames.specs.declared.heard.Heard.TheVariants as heards;
ghost use Rattle.lapm_frames.specs.declared.sent.Sent.TheVariants as slots;
ghost use Rattle.lapm_receiver.specs.Incoming.{Incoming, begun, after_take};
ghost use Rattle.lapm_frames.specs.declared.arrived.Arrived.TheVariants as arrivals;
ghost use Rattle.break_signals.specs.Words.{number_of, word_in};
ghost use Rattle.link_account.specs.Play.{arrives};
ghost use Rattle.lapm_receiver.specs.Taking.{StandsIn};
ghost use Rattle.link_account.specs.Account.{window_for};
ghost use Rattle.link_account.specs.Numbers.{IsNumbered};
ghost use Rattle.link_run.specs.Run.{arrival};
ghost use Rattle.link_run.specs.Laws.{given_in};
ghost use Rattle.link_run.specs.Listened.{check_by, given_by, given_by_word};

use break_signals::{BreakReceiver, BreakWord, read_break};
use frame_check::{Check, Info};
use lapm_frames::{Frame, Heard, Sent};
use lapm_receiver::Receiver;
use outside_calls::{Folder, FolderFault};
use shared_terms::{NoMemory, Role};
use std::alloc::Global;
use xid_params::Terms;

/// One who hears what passes to an end, and knows what both ends offer.
pub struct EndListener {
    /// The end.
    role: Role,
    /// By which the end judges the frames with numbers.
    check: Check,
    /// By which it does once an XID frame has passed to it.
    agreed: Check,
    /// The segments that the end took.
    receiver: Receiver,
    /// The breaks that the end took.
    breaks: BreakReceiver,
    /// The frame has passed by which it becomes Connected: from then on a break counts.
    connected: bool,
}

impl Drop for EndListener {
    // for the prover: so it is dropped by a call, and its fields are not dropped anew wherever one is.
    fn drop(self) {
        let EndListener {
            role: _,
            check: _,
            agreed: _,
            receiver: _,
            breaks: _,
            connected: _,
        } = self;
    }
}

/// The check that both ends agree on.
pub(crate) fn agreed_check(terms: &Terms) -> Check
    ensures { result ≡ check_by terms.now }
{
    if terms.check32 {
        Check::ThirtyTwo
    } else {
        Check::Sixteen
    }
}

/// The window of what an end of this role receives: what the other end sends.
fn window(role: Role, terms: &Terms) -> u8
    ensures { result ≡ window_for (other role) terms.now }
{
    match role {
        Role::Originator => terms.window_a,
        Role::Answerer => terms.window_o,
    }
}

impl EndListener {
    ghost use Rattle.line_tap.specs.declared.listener.EndListener.{EndListener};
    ghost use Rattle.line_tap.specs.EndListener.{Listens, Overhears, IsIdle, HasTaken, delivered};

    /// A listener that has heard nothing. It takes all its memory here.
    pub fn new(alloc: Global, role: Role, terms: &Terms) -> Result<EndListener, NoMemory>
        requires low { 1 ≤ window_for (other role) terms.now }
        requires high { window_for (other role) terms.now ≤ 127 }
        requires srej { terms.now.srej ≡ Bool.true → window_for (other role) terms.now ≤ 64 }
        ensures stands { IfOk result (λ l. Listens l terms.now role Bool.false Bool.false (begun (window_for (other role) terms.now) terms.now.srej) []) }
        ensures idle { IfOk result (λ l. IsIdle l 0) }
    {
        let window = window(role, terms);
        let mut receiver = Receiver::new(alloc, window)?;
        receiver.begin(window, terms.srej);
        Ok(EndListener {
            role,
            check: Check::Sixteen,
            agreed: agreed_check(terms),
            receiver,
            breaks: BreakReceiver::new(),
            connected: false,
        })
    }

    /// The check by which the end judges the frames with numbers.
    pub fn check(&self) -> Check
        ensures { result ≡ self.now.check }
    {
        self.check
    }

    /// A segment passes to the end.
    fn take_segment(&mut self, ns: u8, info: &Info)
        requires number { ns < 128 }
        requires few { self.old.receiver.taken < 2 ^ 56 }
        requires begun { 1 ≤ self.old.receiver.window }
        requires delivered { length self.old.receiver.ready ≡ 0 }
        ensures stands { (terms : TermsValue) (role : Role) (agreed connected : Bool) (i : Incoming) (lengths : List ℕ) → Listens self.old terms role agreed connected i lengths
            → Listens self.new terms role agreed connected (after_take ns info.now i) lengths }
        ensures idle { (turns : ℕ) → IsIdle self.old turns → HasTaken self.new (turns + 1) }
    {
        self.receiver.take(ns, info);
    }

    /// A word of a break passes to the end.
    fn take_word(&mut self, word: BreakWord) -> Option<u8>
        requires number { number_of word < 2 }
        ensures given { (terms : TermsValue) (role : Role) (agreed connected : Bool) (i : Incoming) (lengths : List ℕ) → Listens self.old terms role agreed connected i lengths
            → result ≡ given_by_word (Ok word) lengths }
        ensures stands { (terms : TermsValue) (role : Role) (agreed connected : Bool) (i : Incoming) (lengths : List ℕ) → Listens self.old terms role agreed connected i lengths
            → Listens self.new terms role agreed connected i (lengths ++ given_in (given_by_word (Ok word) lengths)) }
        ensures receiver { self.new.receiver ≡ self.old.receiver }
    {
        match word {
            BreakWord::Brk { number, length } => self.breaks.take(number, length),
            BreakWord::Ack { .. } => None,
        }
    }

    /// The information of a UI frame passes to the end.
    fn take_information(&mut self, info: &Info) -> Option<u8>
        ensures given { (terms : TermsValue) (role : Role) (agreed connected : Bool) (i : Incoming) (lengths : List ℕ) → Listens self.old terms role agreed connected i lengths
            → result ≡ given_by_word (word_in info.now) lengths }
        ensures stands { (terms : TermsValue) (role : Role) (agreed connected : Bool) (i : Incoming) (lengths : List ℕ) → Listens self.old terms role agreed connected i lengths
            → Listens self.new terms role agreed connected i (lengths ++ given_in (given_by_word (word_in info.now) lengths)) }
        ensures receiver { self.new.receiver ≡ self.old.receiver }
    {
        match read_break(info.as_slice()) {
            Ok(word) => self.take_word(word),
            Err(_) => None,
        }
    }

    /// A frame passes to the end: the length of the break that its user is given by it, in units of 10 ms.
    fn take(&mut self, frame: &Frame) -> Option<u8>
        requires numbers { IsNumbered (arrivals.Frame frame.now) }
        requires few { self.old.receiver.taken < 2 ^ 56 }
        requires begun { 1 ≤ self.old.receiver.window }
        requires delivered { length self.old.receiver.ready ≡ 0 }
        ensures given { (terms : TermsValue) (role : Role) (agreed connected : Bool) (i : Incoming) (lengths : List ℕ) → Listens self.old terms role agreed connected i lengths
            → result ≡ given_by connected (heards.Passed (slots.Frame frame.now)) lengths }
        ensures stands { (terms : TermsValue) (role : Role) (agreed connected : Bool) (i : Incoming) (lengths : List ℕ) → Listens self.old terms role agreed connected i lengths
            → Overhears self.new terms role agreed connected i lengths (heards.Passed (slots.Frame frame.now)) }
        ensures idle { (turns : ℕ) → IsIdle self.old turns → HasTaken self.new (turns + 1) }
    {
        match frame {
            Frame::I { ns, info, .. } => {
                self.take_segment(*ns, info);
                None
            }
            Frame::Xid { .. } => {
                self.check = self.agreed;
                None
            }
            Frame::Ui { info, .. } => {
                if self.connected {
                    self.take_information(info)
                } else {
                    None
                }
            }
            Frame::Sabme { .. } => {
                self.connected = self.connected || self.role == Role::Answerer;
                None
            }
            Frame::Ua { pf } => {
                self.connected = self.connected || (*pf && self.role == Role::Originator);
                None
            }
            _ => None,
        }
    }

    /// A slot passes to the end.
    fn take_slot(&mut self, sent: &Sent) -> Option<u8>
        requires numbers { IsNumbered (arrives sent.now) }
        requires few { self.old.receiver.taken < 2 ^ 56 }
        requires begun { 1 ≤ self.old.receiver.window }
        requires delivered { length self.old.receiver.ready ≡ 0 }
        ensures given { (terms : TermsValue) (role : Role) (agreed connected : Bool) (i : Incoming) (lengths : List ℕ) → Listens self.old terms role agreed connected i lengths
            → result ≡ given_by connected (heards.Passed sent.now) lengths }
        ensures stands { (terms : TermsValue) (role : Role) (agreed connected : Bool) (i : Incoming) (lengths : List ℕ) → Listens self.old terms role agreed connected i lengths
            → Overhears self.new terms role agreed connected i lengths (heards.Passed sent.now) }
        ensures idle { (turns : ℕ) → IsIdle self.old turns → HasTaken self.new (turns + 1) }
    {
        match sent {
            Sent::Frame(frame) => self.take(frame),
            Sent::Mark | Sent::Odp | Sent::Adp | Sent::Flags => None,
        }
    }

    /// The end hears: the length of the break that its user is given, in units of 10 ms.
    pub fn hear(&mut self, heard: &Heard) -> Option<u8>
        requires numbers { IsNumbered (arrival heard.now) }
        requires few { self.old.receiver.taken < 2 ^ 56 }
        requires begun { 1 ≤ self.old.receiver.window }
        requires delivered { length self.old.receiver.ready ≡ 0 }
        ensures given { (terms : TermsValue) (role : Role) (agreed connected : Bool) (i : Incoming) (lengths : List ℕ) → Listens self.old terms role agreed connected i lengths
            → result ≡ given_by connected heard.now lengths }
        ensures stands { (terms : TermsValue) (role : Role) (agreed connected : Bool) (i : Incoming) (lengths : List ℕ) → Listens self.old terms role agreed connected i lengths
            → Overhears self.new terms role agreed connected i lengths heard.now }
        ensures idle { (turns : ℕ) → IsIdle self.old turns → HasTaken self.new (turns + 1) }
    {
        match heard {
            Heard::Passed(sent) => self.take_slot(sent),
            Heard::Nothing | Heard::Lost(_) | Heard::Chance => None,
        }
    }

    /// Appends the segments that the end took to the file of that name, one by one.
    pub fn deliver<F: Folder>(&mut self, folder: &mut F, name: &str) -> Result<(), FolderFault>
        ensures stands { OnOk result ((terms : TermsValue) (role : Role) (agreed connected : Bool) (i : Incoming) (lengths : List ℕ) → Listens self.old terms role agreed connected i lengths
            → Listens self.new terms role agreed connected (delivered i) lengths) }
        ensures ok { OnOk result ((i : Incoming) → StandsIn self.old.receiver i → Adds (F.state folder.old) (F.state folder.new) name.now (concat (drop i.given i.taken))) }
        ensures err { OnErr result ((i : Incoming) → StandsIn self.old.receiver i → PartlyAppended (F.state folder.old) (F.state folder.new) name.now (concat (drop i.given i.taken))) }
        ensures idle { OnOk result ((turns : ℕ) → HasTaken self.old turns → IsIdle self.new turns) }
        ensures only { OnlyWrites (F.state folder.old) (F.state folder.new) name.now }
        ensures cause { HasCause ((F.state folder.old).write_faults name.now) ((F.state folder.new).write_faults name.now) (F.state folder.old).refusals (F.state folder.new).refusals result }
        ensures stand { OnOk result (CountsStand (F.state folder.old) (F.state folder.new)) }
        ensures spared { IsErrOf result FolderFault.NoMemory → FaultsStand (F.state folder.old) (F.state folder.new) }
        ensures came { F.came folder.old folder.new }
    {
        let mut segment = Info::new();
        loop {
            if !self.receiver.deliver(&mut segment) {
                return Ok(());
            }
            match folder.append(name, segment.as_slice()) {
                Ok(()) => {}
                Err(fault) => return Err(fault),
            }
        }
    }
}
