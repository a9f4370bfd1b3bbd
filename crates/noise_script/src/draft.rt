// A script while it is read: what the lines so far say.
ghost use Rattle.std.specs.Prelude.{◌≡◌, ◌<◌, ◌++◌, ◌∷◌, [], List, OnOk, nat_le, take, drop, length, ◌≤◌};
ghost use Rattle.noise_script.specs.Forms.{row, form_of, kind_of, most};
ghost use Rattle.noise_script.specs.Grammar.{standing, AreAllowed};
ghost use Rattle.noise_script.specs.Breaks.{placed};
ghost use Rattle.noise_script.specs.Draft.{Holds, Adds, offered_of, with_offered, draft_script};
ghost use Rattle.noise_script.specs.Script.{IsInLimits};

use crate::entry::{Delays, Entry, Length, Window};
use crate::offered::{NOTHING_OFFERED, Offered};
use crate::{Break, Hit, Loss, Noise, Pause, Script};
use shared_terms::{NoMemory, Role};
use std::alloc::Global;

pub(crate) struct Draft {
    /// Where a line said them.
    delays: Option<Delays>,
    /// Where a line said them.
    tries: Option<u8>,
    /// What lines said of the originator's offer.
    orig: Offered,
    /// What lines said of the answerer's offer.
    answ: Offered,
    /// In the order of the text.
    losses: Vec<Loss>,
    /// In the order of the text.
    hits: Vec<Hit>,
    /// In the order of the text.
    noises: Vec<Noise>,
    /// In rising order of turn.
    breaks: Vec<Break>,
    /// In the order of the text.
    pauses: Vec<Pause>,
}

impl Drop for Draft {
    // for the prover: so it is dropped by a call, and its fields are not dropped anew wherever one is.
    fn drop(self) {
        let Draft {
            delays: _,
            tries: _,
            orig: _,
            answ: _,
            losses: _,
            hits: _,
            noises: _,
            breaks: _,
            pauses: _,
        } = self;
    }
}

const DEFAULT_DELAYS: Delays = Delays { orig: 1, answ: 1 };

const DEFAULT_TRIES: u8 = 5;

/// How many breaks stand before one more of that turn, where they stand in rising order of turn.
fn place_of(breaks: &[Break], line: Break) -> usize
    ensures within { result ≤ length breaks.now }
    ensures place { placed line breaks.now ≡ take result breaks.now ++ line ∷ drop result breaks.now }
{
    for (at, next) in breaks.iter().enumerate() {
        if line.turn < next.turn {
            return at;
        }
    }
    breaks.len()
}

/// Adds a break where it stands in rising order of turn.
fn insert_break(breaks: &mut Vec<Break>, line: Break) -> Result<(), NoMemory>
    ensures { OnOk result (breaks.new.items ≡ placed line breaks.old.items) }
{
    breaks.insert(place_of(breaks, line), line)?;
    Ok(())
}

fn push<T: Copy>(items: &mut Vec<T>, item: T) -> Result<(), NoMemory>
    ensures { OnOk result (items.new.items ≡ items.old.items ++ item ∷ []) }
{
    items.push(item)?;
    Ok(())
}

impl Draft {
    pub(crate) fn new(alloc: Global) -> Self
        ensures { Holds result [] }
    {
        Draft {
            delays: None,
            tries: None,
            orig: NOTHING_OFFERED,
            answ: NOTHING_OFFERED,
            losses: Vec::new(alloc),
            hits: Vec::new(alloc),
            noises: Vec::new(alloc),
            breaks: Vec::new(alloc),
            pauses: Vec::new(alloc),
        }
    }

    /// What the lines so far say of a role's offer.
    fn offered(&self, role: Role) -> Offered
        ensures { result ≡ offered_of self.now role }
    {
        match role {
            Role::Originator => self.orig,
            Role::Answerer => self.answ,
        }
    }

    fn set_offered(&mut self, role: Role, offered: Offered)
        ensures { self.new ≡ with_offered self.old role offered }
    {
        match role {
            Role::Originator => self.orig = offered,
            Role::Answerer => self.answ = offered,
        }
    }

    /// How many lines there are that are counted together with one that says this.
    fn standing(&self, entry: Entry) -> usize
        ensures { (said : List Entry) → Holds self.now said → AreAllowed said → result ≡ standing (kind_of entry) said }
    {
        match entry {
            Entry::Delay(_) => usize::from(self.delays.is_some()),
            Entry::Window(window) => usize::from(self.offered(window.role).window.is_some()),
            Entry::Length(length) => usize::from(self.offered(length.role).length.is_some()),
            Entry::Tries(_) => usize::from(self.tries.is_some()),
            Entry::Srej(role) => usize::from(self.offered(role).srej),
            Entry::Check32(role) => usize::from(self.offered(role).check32),
            Entry::Lose(_) => self.losses.len(),
            Entry::Hit(_) => self.hits.len(),
            Entry::Noise(_) => self.noises.len(),
            Entry::Break(_) => self.breaks.len(),
            Entry::Busy(_) => self.pauses.len(),
        }
    }

    /// Whether a line more that says this is too many.
    pub(crate) fn is_full(&self, entry: Entry) -> bool
        ensures { (said : List Entry) → Holds self.now said → AreAllowed said → (result ≡ nat_le (most (row (form_of entry)).bound) (standing (kind_of entry) said)) }
    {
        entry.form().bound().most() <= self.standing(entry)
    }

    fn add_window(&mut self, window: Window)
        ensures { Adds self.old (Entry.Window window) self.new }
    {
        let mut offered = self.offered(window.role);
        offered.window = Some(window.segments);
        self.set_offered(window.role, offered);
    }

    fn add_length(&mut self, length: Length)
        ensures { Adds self.old (Entry.Length length) self.new }
    {
        let mut offered = self.offered(length.role);
        offered.length = Some(length.octets);
        self.set_offered(length.role, offered);
    }

    fn add_srej(&mut self, role: Role)
        ensures { Adds self.old (Entry.Srej role) self.new }
    {
        let mut offered = self.offered(role);
        offered.srej = true;
        self.set_offered(role, offered);
    }

    fn add_check32(&mut self, role: Role)
        ensures { Adds self.old (Entry.Check32 role) self.new }
    {
        let mut offered = self.offered(role);
        offered.check32 = true;
        self.set_offered(role, offered);
    }

    /// Adds what one line more says.
    pub(crate) fn add(&mut self, entry: Entry) -> Result<(), NoMemory>
        ensures { OnOk result (Adds self.old entry self.new) }
    {
        match entry {
            Entry::Delay(delays) => self.delays = Some(delays),
            Entry::Window(window) => self.add_window(window),
            Entry::Length(length) => self.add_length(length),
            Entry::Tries(tries) => self.tries = Some(tries),
            Entry::Srej(role) => self.add_srej(role),
            Entry::Check32(role) => self.add_check32(role),
            Entry::Lose(loss) => return push(&mut self.losses, loss),
            Entry::Hit(hit) => return push(&mut self.hits, hit),
            Entry::Noise(noise) => return push(&mut self.noises, noise),
            Entry::Break(line) => return insert_break(&mut self.breaks, line),
            Entry::Busy(pause) => return push(&mut self.pauses, pause),
        }
        Ok(())
    }

    /// The script that all lines together say.
    pub(crate) fn finish(self) -> Script
        requires { IsInLimits (draft_script self) }
        ensures { result ≡ draft_script self }
    {
        let Draft {
            delays,
            tries,
            orig,
            answ,
            losses,
            hits,
            noises,
            breaks,
            pauses,
        } = self;
        let delays = delays.unwrap_or(DEFAULT_DELAYS);
        Script {
            delay_orig: delays.orig,
            delay_answ: delays.answ,
            tries: tries.unwrap_or(DEFAULT_TRIES),
            offer_orig: orig.offer(),
            offer_answ: answ.offer(),
            losses,
            hits,
            noises,
            breaks,
            pauses,
        }
    }
}
