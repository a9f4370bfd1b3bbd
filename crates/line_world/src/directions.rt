// The two directions of the line, between what codes slots and what they are heard as.
ghost use Rattle.std.specs.Prelude.{◌≡◌, ℕ, ◌+◌, ◌<◌, ◌≤◌, List, [], length, Option, IfOk};
ghost use Rattle.frame_check.specs.declared.sizes.TheConstants.{SLOT};
ghost use Rattle.bit_stuffing.specs.declared.slot_writer.TheConstants.{HEAD, TAIL};
ghost use Rattle.shared_terms.specs.declared.role.Role.{Role};
ghost use Rattle.shared_terms.specs.Both.{Both};
ghost use Rattle.detection.specs.Slots.{Signal};
ghost use Rattle.link_account.specs.Numbers.{IsNumbered};
ghost use Rattle.link_run.specs.Run.{Turn, arrival};
ghost use Rattle.line_run.specs.Sampled.{Wire};
ghost use Rattle.line_run.specs.Scripted.{wire_at, wire_of, longest_of};
ghost use Rattle.line_run.specs.Stream.{Carried};
ghost use Rattle.line_world.specs.Lines.{AreWaiting, HaveRoom, AreDue, ArrivesSo, PassedFew, from, none_sent};

use crate::DelayedLine;
use bit_stuffing::{HEAD, TAIL};
use frame_check::Check;
use line_run::laws::{scripts_make_links, slots_have_room};
use noise_script::Script;
use sample_line::{Heard, Line};
use shared_terms::{Both, NoMemory, Role};
use std::alloc::Global;

/// How the line ends a run as a turn begins. The role is that of the end that hears.
#[derive(Clone, Copy)]
pub enum LineEnd {
    /// The line is lost with this symbol of all that the end hears.
    Lost { role: Role, symbol: u64 },
    /// Something else than what was sent was received.
    Chance { role: Role },
}

/// The direction from each end to the other. What is put on the way in either was coded before.
pub struct Directions {
    /// From the originator to the answerer.
    pub from_orig: DelayedLine,
    /// From the answerer to the originator.
    pub from_answ: DelayedLine,
}

impl Drop for Directions {
    // for the prover: so it is dropped by a call, and its fields are not dropped anew wherever one is.
    fn drop(self) {
        let Directions {
            from_orig: _,
            from_answ: _,
        } = self;
    }
}

/// The longest information field that a slot of this script's line has room for.
fn longest(script: &Script) -> u16
    ensures { result ≡ longest_of script.now }
{
    let orig = script.offer(Role::Originator);
    let answ = script.offer(Role::Answerer);
    128.max(
        orig.tx_len
            .max(orig.rx_len)
            .max(answ.tx_len.max(answ.rx_len)),
    )
}

/// The symbols of a slot: room for flags, the longest frame that the ends may send with a zero behind each five ones, a closing flag, and
/// [`TAIL`] symbols behind that.
pub fn slot_symbols(script: &Script) -> u16
    ensures value { result ≡ (wire_of script.now).symbols }
    ensures low { HEAD + TAIL < result }
    ensures high { result ≤ SLOT }
{
    slots_have_room();
    script.is_in_limits();
    let octets = longest(script) + 7;
    HEAD + (8 * octets + 8 * octets / 5 + 8 + 3) / 4 + TAIL
}

impl Directions {
    ghost use Rattle.line_world.specs.declared.directions.Directions.{Directions};

    /// Both directions of a script's line before the first turn, on which so many links send. They take all their memory.
    pub fn new(alloc: Global, script: &Script, links: u8) -> Result<Directions, NoMemory>
        requires { 1 ≤ links }
        ensures { IfOk result (λ d. (dlci : ℕ) (beside : Role → ℕ → Option Signal) → AreWaiting d (wire_at script.now dlci beside) links none_sent) }
    {
        script.is_in_limits();
        scripts_make_links();
        let symbols = slot_symbols(script);
        let delay_orig = script.delay(Role::Originator);
        let delay_answ = script.delay(Role::Answerer);
        Ok(Directions {
            from_orig: DelayedLine::new(alloc, Role::Originator, symbols, delay_orig, links)?,
            from_answ: DelayedLine::new(alloc, Role::Answerer, symbols, delay_answ, links)?,
        })
    }

    /// What both ends of a link hear in this turn, with these checks on this channel, or how the line ends the run: the originator's slot first.
    pub fn arrive(
        &mut self,
        script: &Script,
        turn: u64,
        checks: &Both<Check>,
        dlci: u8,
    ) -> Result<Both<Heard>, LineEnd>
        requires channel { dlci < 64 }
        requires few { PassedFew self.old }
        requires due { (c : Wire) × (links : ℕ) × (ts : List Turn) × (streams : Both (List Carried)) × AreWaiting self.old c links streams
            × AreDue c links ts streams × (c.script ≡ script.now) × (turn ≡ length ts) }
        ensures arrives { (c : Wire) (links : ℕ) (ts : List Turn) (streams : Both (List Carried)) → AreWaiting self.old c links streams
            → AreDue c links ts streams → c.script ≡ script.now → c.dlci ≡ dlci → turn ≡ length ts
            → ArrivesSo (HaveRoom self.new c links streams) c ts checks.now result }
        ensures orig_numbered { IfOk result (λ heard. IsNumbered (arrival heard.orig)) }
        ensures answ_numbered { IfOk result (λ heard. IsNumbered (arrival heard.answ)) }
    {
        let orig = match self.from_answ.arrive(script, turn, checks.orig, dlci) {
            Ok(heard) => heard,
            Err(lost) => {
                return Err(LineEnd::Lost {
                    role: Role::Originator,
                    symbol: lost.symbol,
                });
            }
        };
        if let Heard::Chance = orig {
            return Err(LineEnd::Chance {
                role: Role::Originator,
            });
        }
        let answ = match self.from_orig.arrive(script, turn, checks.answ, dlci) {
            Ok(heard) => heard,
            Err(lost) => {
                return Err(LineEnd::Lost {
                    role: Role::Answerer,
                    symbol: lost.symbol,
                });
            }
        };
        if let Heard::Chance = answ {
            return Err(LineEnd::Chance {
                role: Role::Answerer,
            });
        }
        Ok(Both { orig, answ })
    }

    /// The direction in which this role sends.
    pub fn line(&self, role: Role) -> &Line
        ensures { result.now ≡ (from role self.now).line }
    {
        match role {
            Role::Originator => self.from_orig.line(),
            Role::Answerer => self.from_answ.line(),
        }
    }
}
