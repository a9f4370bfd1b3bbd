// What codes what an end sends.
ghost use Rattle.std.specs.Prelude.{◌≡◌, ◌+◌, ◌*◌, ◌<◌, ◌≤◌, List, [], ◌∷◌, ◌++◌, map};
ghost use Rattle.frame_check.specs.declared.sizes.TheConstants.{SLOT};
ghost use Rattle.bit_stuffing.specs.declared.slot_writer.TheConstants.{HEAD, TAIL};
ghost use Rattle.shared_terms.specs.declared.role.Role.{Role};
ghost use Rattle.sample_line.specs.Signals.{IsCodable};
ghost use Rattle.sample_line.specs.Coder.{IsCodedAs};
ghost use Rattle.line_run.specs.Sampled.{Wire};
ghost use Rattle.line_run.specs.Stream.{Carried, carried_signal};
ghost use Rattle.line_world.specs.Lines.{HasCoded, IsPut};

use bit_stuffing::BitSlot;
use frame_check::Check;
use lapm_frames::Sent;
use sample_line::{Coder, LabelSlot};
use shared_terms::Role;

/// The coder of what an end sends, with the bits of the slot that it coded last.
#[derive(Drop)]
pub struct EndCoder {
    /// From what is sent to bits and labels.
    coder: Coder,
    /// The bits of the latest slot, in a room that isn't cleared for each slot anew.
    newest: BitSlot,
}

impl EndCoder {
    /// A coder before the first slot of this end, whose slots have so many symbols.
    pub fn new(sender: Role, symbols: u16) -> EndCoder
        requires low { HEAD + TAIL < symbols }
        requires high { symbols ≤ SLOT }
        ensures { (c : Wire) → c.symbols ≡ symbols → HasCoded result c sender [] }
    {
        EndCoder {
            coder: Coder::new(sender, symbols),
            newest: BitSlot::new(),
        }
    }

    /// The labels of the next slot, in which this is sent with this check on this channel.
    pub fn code(&mut self, sent: &Sent, check: Check, dlci: u8) -> LabelSlot
        requires channel { dlci < 64 }
        requires codable { IsCodable check self.old.coder.sender dlci self.old.coder.writer.symbols self.old.coder.writer.phase sent.now }
        ensures labels { (c : Wire) (role : Role) (stream : List Carried) (x : Carried) → HasCoded self.old c role stream → IsPut x sent.now check dlci
            → IsCodedAs role (4 * c.symbols) (map (carried_signal role) stream) (carried_signal role x) result }
        ensures stands { (c : Wire) (role : Role) (stream : List Carried) (x : Carried) → HasCoded self.old c role stream → IsPut x sent.now check dlci
            → HasCoded self.new c role (stream ++ x ∷ []) }
    {
        let mut labels = LabelSlot::new();
        self.coder
            .code(sent, check, dlci, &mut self.newest, &mut labels);
        labels
    }

    /// The bits of the slot that was coded last.
    pub fn newest(&self) -> &BitSlot
        ensures { result.now ≡ self.now.newest }
    {
        &self.newest
    }
}
