// What the line and the ends' users do, by a script.
ghost use Rattle.std.specs.Prelude.{◌≡◌, ◌≤◌, ◌<◌, ◌+◌, ℕ, length, true};
ghost use Rattle.noise_script.specs.Script.{delay_of, offer_of, loses, offset_of, break_of, is_busy};
ghost use Rattle.noise_script.specs.Breaks.{break_in};
ghost use Rattle.noise_script.specs.Offsets.{IsWithin, nothing};
ghost use Rattle.noise_script.specs.Batches.{at_place, AreWithin};
ghost use Rattle.xid_params.specs.Offers.{IsAllowed};

use crate::batch::{add_hits, add_noises, clear};
use crate::offset::{NOTHING, covers, some_hit, some_noise};
use crate::{Break, Generators, Hit, Loss, Noise, OFFSET_MOST, Offset, Pause};
use shared_terms::Role;
use std::marker::Model;
use xid_params::Offer;

/// What the line does to the slots and samples that cross it, what the ends offer and how often they try, and when their users
/// ask for breaks and pauses.
pub struct Script {
    /// From the originator to the answerer, 1 to 60 turns.
    pub(crate) delay_orig: u8,
    /// From the answerer to the originator, 1 to 60 turns.
    pub(crate) delay_answ: u8,
    /// How often both ends ask, 1 to 20 [N400].
    pub(crate) tries: u8,
    /// The originator's.
    pub(crate) offer_orig: Offer,
    /// The answerer's.
    pub(crate) offer_answ: Offer,
    /// In the order of the text.
    pub(crate) losses: Vec<Loss>,
    /// In the order of the text.
    pub(crate) hits: Vec<Hit>,
    /// In the order of the text.
    pub(crate) noises: Vec<Noise>,
    /// In rising order of turn, equal turns in the order of the text.
    pub(crate) breaks: Vec<Break>,
    /// In the order of the text.
    pub(crate) pauses: Vec<Pause>,
}

impl Drop for Script {
    // for the prover: so it is dropped by a call, and its fields are not dropped anew wherever one is.
    fn drop(self) {
        let Script {
            delay_orig: _,
            delay_answ: _,
            tries: _,
            offer_orig: _,
            offer_answ: _,
            losses: _,
            hits: _,
            noises: _,
            breaks: _,
            pauses: _,
        } = self;
    }
}

impl Model for Script {
    ghost use Rattle.noise_script.specs.Script.{ScriptValue, IsInLimits};

    ghost Value = { ScriptValue };

    ghost view = { λ s. record { delay_orig = s.delay_orig; delay_answ = s.delay_answ; tries = s.tries; offer_orig = s.offer_orig; offer_answ = s.offer_answ; losses = s.losses.items; hits = s.hits.items; noises = s.noises.items; breaks = s.breaks.items; pauses = s.pauses.items } };

    ghost invariant = { λ s. IsInLimits (record { delay_orig = s.delay_orig; delay_answ = s.delay_answ; tries = s.tries; offer_orig = s.offer_orig; offer_answ = s.offer_answ; losses = s.losses.items; hits = s.hits.items; noises = s.noises.items; breaks = s.breaks.items; pauses = s.pauses.items }) };
}

/// The turn and the length of the break of a role that has that index.
fn break_at(lines: &[Break], role: Role, index: usize) -> Option<(u64, u8)>
    ensures { result ≡ break_in lines.now role index }
{
    let mut ahead = index;
    for line in lines {
        if line.role == role {
            if ahead == 0 {
                return Some((u64::from(line.turn), line.length));
            }
            ahead -= 1;
        }
    }
    None
}

impl Script {
    ghost use Rattle.noise_script.specs.Script.{IsInLimits};

    /// A script is within the limits of its numbers and lines. It does nothing: the fact is the contract.
    pub fn is_in_limits(&self)
        ensures { IsInLimits self.now }
    {
        // for the prover: reading the script brings its invariant
        let _tries = self.tries;
    }

    /// How many turns a slot of this sender is on the line.
    pub fn delay(&self, sender: Role) -> u8
        ensures value { result ≡ delay_of self.now sender }
        ensures some { 1 ≤ result }
        ensures few { result ≤ 60 }
    {
        match sender {
            Role::Originator => self.delay_orig,
            Role::Answerer => self.delay_answ,
        }
    }

    /// How often an end sends again before it gives up.
    pub fn tries(&self) -> u8
        ensures value { result ≡ self.now.tries }
        ensures some { 1 ≤ result }
        ensures few { result ≤ 20 }
    {
        self.tries
    }

    /// What an end offers.
    pub fn offer(&self, role: Role) -> Offer
        ensures value { result ≡ offer_of self.now role }
        ensures allowed { IsAllowed result }
    {
        match role {
            Role::Originator => self.offer_orig,
            Role::Answerer => self.offer_answ,
        }
    }

    /// Whether the slot that a role sends in a turn is lost.
    pub fn loses(&self, sender: Role, turn: u64) -> bool
        ensures { result ≡ loses self.now sender turn }
    {
        self.losses.iter().any(|loss| loss.role == sender
            && covers(u64::from(loss.from), loss.count, turn))
    }

    /// What is added to a symbol that a role sends, symbols being counted from 0, whatever the generators were asked before. It is
    /// quickest for the symbol behind the one that they were asked last, and takes about as long at any other.
    pub fn offset(&self, generators: &mut Generators, sender: Role, symbol: u64) -> Offset
        ensures value { result ≡ offset_of self.now sender symbol }
        ensures small { IsWithin OFFSET_MOST result }
    {
        let mut sums = [NOTHING];
        self.offsets(generators, sender, symbol, &mut sums);
        sums[0]
    }

    /// What is added to each of the symbols that a role sends from one on, as many as there are sums: `offset` of each, whatever the
    /// generators were asked before. Each line is looked at once, and not once a symbol.
    pub fn offsets(&self, generators: &mut Generators, sender: Role, from: u64, sums: &mut [Offset])
        ensures value { (place : ℕ) → place < length sums.old → at_place sums.new place ≡ offset_of self.now sender (from + place) }
        ensures small { AreWithin OFFSET_MOST sums.new }
    {
        clear(sums);
        add_hits(&self.hits, sender, from, sums);
        add_noises(&self.noises, generators, sender, from, sums);
    }

    /// Whether it is plain that nothing is added to any of so many symbols that a role sends from one on: no line of the role's symbols
    /// reaches them. Then no sums need to be made.
    pub fn is_still(&self, sender: Role, from: u64, count: u32) -> bool
        ensures { result ≡ true → (symbol : ℕ) → from ≤ symbol → symbol < from + count → offset_of self.now sender symbol ≡ nothing }
    {
        if some_hit(&self.hits, sender, from, count) {
            return false;
        }
        !some_noise(&self.noises, sender, from, count)
    }

    /// The turn of a role's break and its length in units of 10 ms. It is None where the role has no break of that index: they
    /// are counted from 0 in rising order of turn, those of one turn in the order of the text.
    pub fn break_line(&self, role: Role, index: usize) -> Option<(u64, u8)>
        ensures { result ≡ break_of self.now role index }
    {
        break_at(&self.breaks, role, index)
    }

    /// Whether a role's user asks for a pause in a turn.
    pub fn busy(&self, role: Role, turn: u64) -> bool
        ensures { result ≡ is_busy self.now role turn }
    {
        self.pauses.iter().any(|pause| pause.role == role
            && covers(u64::from(pause.from), u32::from(pause.count), turn))
    }
}
