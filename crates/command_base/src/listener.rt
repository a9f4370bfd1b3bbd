// A listener to a stream of bits, which prints what each piece is.
ghost use Rattle.std.specs.Prelude.{◌≡◌, ◌≤◌, ◌<◌, ◌+◌, ◌*◌, ◌^◌, Bool, List, [], ◌∷◌, ◌++◌, OnOk, OnErr, IfErr, length};
ghost use Rattle.outside_calls.specs.Folder.{FolderState, OnlySays, CountsStand};
ghost use Rattle.frame_check.specs.Bits.{low_bits, octet_bits, bits_of};
ghost use Rattle.command_base.specs.Stops.{SayFails};
ghost use Rattle.bit_stuffing.specs.Found.{Found};
ghost use Rattle.command_base.specs.Heard.{Heard, Hears, PartlyHeard, LeftAt, SaysPiece, PartlySaysPiece};

use crate::piece_lines::put_piece;
use crate::say_line;
use bit_stuffing::{Deframer, Piece};
use line_texts::LineText;
use outside_calls::{Folder, FolderFault};
use shared_terms::Role;
use std::marker::Model;

/// Receives the stream of one end, bit by bit, and prints a line for each piece.
pub struct Listener {
    /// Holds the piece that has begun.
    deframer: Deframer,
    /// The end that sent the stream.
    sender: Role,
    /// How many were printed.
    pieces: u64,
}

impl Drop for Listener {
    // for the prover: so it is dropped by a call, and its fields are not dropped anew wherever one is.
    fn drop(self) {
        let Listener {
            deframer: _,
            sender: _,
            pieces: _,
        } = self;
    }
}

impl Model for Listener {
    ghost use Rattle.command_base.specs.Heard.{Listening};

    ghost Value = { Listening };

    ghost view = { λ l. record { deframer = l.deframer; sender = l.sender; pieces = l.pieces } };
}

/// Prints the line of a piece, of these octets where it is whole. It isn't inlined, so that no bit without a piece pays for its room.
#[inline(never)]
fn say_piece<F: Folder>(
    folder: &mut F,
    piece: Piece,
    octets: &[u8],
    sender: Role,
) -> Result<(), FolderFault>
    ensures ok { (found : Found) → found.piece ≡ piece → found.octets ≡ octets.now
        → OnOk result (SaysPiece (F.state folder.old) (F.state folder.new) sender found) }
    ensures err { (found : Found) → found.piece ≡ piece → found.octets ≡ octets.now
        → OnErr result (PartlySaysPiece (F.state folder.old) (F.state folder.new) sender found) }
    ensures only { OnlySays (F.state folder.old) (F.state folder.new) }
    ensures fails { IfErr result (SayFails (F.state folder.old) (F.state folder.new)) }
    ensures stand { OnOk result (CountsStand (F.state folder.old) (F.state folder.new)) }
{
    let mut line = LineText::new();
    put_piece(piece, octets, sender, &mut line);
    say_line(folder, line.as_slice())
}

impl Listener {
    /// A listener before the first bit.
    pub fn new(sender: Role) -> Listener
        ensures heard { (start : FolderState) → Heard start start result [] }
        ensures sender { result.sender ≡ sender }
        ensures pieces { result.pieces ≡ 0 }
    {
        Listener {
            deframer: Deframer::new(),
            sender,
            pieces: 0,
        }
    }

    /// How many pieces were heard.
    pub fn pieces(&self) -> u64
        ensures { result ≡ self.now.pieces }
    {
        self.pieces
    }

    /// Receives a bit, and prints the line of the piece that ends with it, if one does.
    fn hear_bit<F: Folder>(&mut self, folder: &mut F, bit: bool) -> Result<(), FolderFault>
        requires { self.old.pieces < 2 ^ 63 }
        ensures hears { Hears (F.state folder.old) (F.state folder.new) self.old self.new (bit ∷ []) result }
        ensures pieces { self.new.pieces ≤ self.old.pieces + 1 }
    {
        match self.deframer.push(bit) {
            None => Ok(()),
            Some(piece) => {
                self.pieces += 1;
                say_piece(folder, piece, self.deframer.whole(), self.sender)
            }
        }
    }

    /// Hears the low bits of an octet, so many, one by one.
    fn hear_each<F: Folder>(
        &mut self,
        folder: &mut F,
        octet: u8,
        count: u32,
    ) -> Result<(), FolderFault>
        requires pieces { self.old.pieces < 2 ^ 62 }
        requires few { count ≤ 8 }
        ensures hears { Hears (F.state folder.old) (F.state folder.new) self.old self.new (low_bits count octet) result }
        ensures pieces { self.new.pieces ≤ self.old.pieces + count }
    {
        for place in 0..count {
            match self.hear_bit(folder, (octet >> place) & 1 == 1) {
                Ok(()) => {}
                Err(fault) => return Err(fault),
            }
        }
        Ok(())
    }

    /// Hears four bits, the low one first: at once, where it is plain that no piece ends with any of them.
    fn hear_four<F: Folder>(&mut self, folder: &mut F, four: u8) -> Result<(), FolderFault>
        requires pieces { self.old.pieces < 2 ^ 62 }
        requires four { four < 16 }
        ensures hears { Hears (F.state folder.old) (F.state folder.new) self.old self.new (low_bits 4 four) result }
        ensures pieces { self.new.pieces ≤ self.old.pieces + 4 }
    {
        if self.deframer.pass_four(four) {
            return Ok(());
        }
        self.hear_each(folder, four, 4)
    }

    /// Hears the bits of an octet, the low one first: at once, where it is plain that no piece ends with any of them.
    fn hear_octet<F: Folder>(&mut self, folder: &mut F, octet: u8) -> Result<(), FolderFault>
        requires { self.old.pieces < 2 ^ 61 }
        ensures hears { Hears (F.state folder.old) (F.state folder.new) self.old self.new (octet_bits octet) result }
        ensures pieces { self.new.pieces ≤ self.old.pieces + 8 }
    {
        if self.deframer.pass(octet) {
            return Ok(());
        }
        match self.hear_four(folder, octet % 16) {
            Ok(()) => self.hear_four(folder, octet / 16),
            Err(fault) => Err(fault),
        }
    }

    /// Hears the low bits of an octet, so many: four at once.
    fn hear_some<F: Folder>(
        &mut self,
        folder: &mut F,
        octet: u8,
        count: u32,
    ) -> Result<(), FolderFault>
        requires pieces { self.old.pieces < 2 ^ 62 }
        requires few { count ≤ 8 }
        ensures hears { Hears (F.state folder.old) (F.state folder.new) self.old self.new (low_bits count octet) result }
        ensures pieces { self.new.pieces ≤ self.old.pieces + count }
    {
        match count {
            4 => self.hear_four(folder, octet % 16),
            _ => self.hear_each(folder, octet, count),
        }
    }

    /// Hears the low bits of an octet, so many, the lowest one first.
    pub fn hear_low<F: Folder>(
        &mut self,
        folder: &mut F,
        octet: u8,
        count: u32,
    ) -> Result<(), FolderFault>
        requires pieces { self.old.pieces < 2 ^ 62 }
        requires few { count ≤ 8 }
        ensures ok { (start : FolderState) (bits : List Bool) → Heard start (F.state folder.old) self.old bits
            → OnOk result (Heard start (F.state folder.new) self.new (bits ++ low_bits count octet)) }
        ensures err { (start : FolderState) (bits : List Bool) → Heard start (F.state folder.old) self.old bits
            → OnErr result (PartlyHeard start (F.state folder.new) self.old.sender (bits ++ low_bits count octet)) }
        ensures left { (start : FolderState) (bits : List Bool) → Heard start (F.state folder.old) self.old bits
            → OnErr result (LeftAt start (F.state folder.new) self.new (bits ++ low_bits count octet)) }
        ensures only { OnlySays (F.state folder.old) (F.state folder.new) }
        ensures fails { IfErr result (SayFails (F.state folder.old) (F.state folder.new)) }
        ensures stand { OnOk result (CountsStand (F.state folder.old) (F.state folder.new)) }
        ensures sender { self.new.sender ≡ self.old.sender }
        ensures pieces { self.new.pieces ≤ self.old.pieces + count }
    {
        self.hear_some(folder, octet, count)
    }

    /// Hears the bits of octets, one octet after another.
    fn hear_octets<F: Folder>(&mut self, folder: &mut F, octets: &[u8]) -> Result<(), FolderFault>
        requires pieces { self.old.pieces < 2 ^ 60 }
        requires few { length octets.now < 2 ^ 32 }
        ensures hears { Hears (F.state folder.old) (F.state folder.new) self.old self.new (bits_of octets.now) result }
        ensures pieces { self.new.pieces ≤ self.old.pieces + 8 * length octets.now }
    {
        for octet in octets {
            match self.hear_octet(folder, *octet) {
                Ok(()) => {}
                Err(fault) => return Err(fault),
            }
        }
        Ok(())
    }

    /// Hears the bits of octets.
    pub fn hear<F: Folder>(&mut self, folder: &mut F, octets: &[u8]) -> Result<(), FolderFault>
        requires pieces { self.old.pieces < 2 ^ 60 }
        requires few { length octets.now < 2 ^ 32 }
        ensures ok { (start : FolderState) (bits : List Bool) → Heard start (F.state folder.old) self.old bits
            → OnOk result (Heard start (F.state folder.new) self.new (bits ++ bits_of octets.now)) }
        ensures err { (start : FolderState) (bits : List Bool) → Heard start (F.state folder.old) self.old bits
            → OnErr result (PartlyHeard start (F.state folder.new) self.old.sender (bits ++ bits_of octets.now)) }
        ensures left { (start : FolderState) (bits : List Bool) → Heard start (F.state folder.old) self.old bits
            → OnErr result (LeftAt start (F.state folder.new) self.new (bits ++ bits_of octets.now)) }
        ensures only { OnlySays (F.state folder.old) (F.state folder.new) }
        ensures fails { IfErr result (SayFails (F.state folder.old) (F.state folder.new)) }
        ensures stand { OnOk result (CountsStand (F.state folder.old) (F.state folder.new)) }
        ensures sender { self.new.sender ≡ self.old.sender }
        ensures pieces { self.new.pieces ≤ self.old.pieces + 8 * length octets.now }
    {
        self.hear_octets(folder, octets)
    }
}
