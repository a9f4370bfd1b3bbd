// A run's outputs, made before its first turn.
ghost use Rattle.std.specs.Prelude.{◌≡◌, ◌⊎◌, ◌∷◌, [], Some, None, true, OnOk, OnErr, IfOk, IfErr};
ghost use Rattle.outside_calls.specs.Folder.{CountsStand, OnlyWrites};
ghost use Rattle.outside_calls.specs.Outputs.{AreApart, Creates, CreatesPart, Holds, HoldsFront, OnlyOutputs, SaysNothing};
ghost use Rattle.line_run.specs.Recorded.{tapes_of};
ghost use Rattle.line_run.specs.Sampled.{Wire};
ghost use Rattle.sample_line.specs.Mode.{mode_of};
ghost use Rattle.recordings.specs.Recording.{header_of};
ghost use Rattle.command_base.specs.Stops.{WriteFails};
ghost use Rattle.command_base.specs.Apart.{are_apart};
ghost use Rattle.line_world.specs.Taping.{KeepsTape, KeepTapes, tape_names};
ghost use Rattle.run_inputs.specs.Words.{named, inputs_of, outputs_of, texts_of};
ghost use Rattle.run_commands.specs.Running.Tapes.{HeadsPartly};

use command_base::{apart_names_differ, append_output, create_outputs};
use line_world::Tape;
use outside_calls::{Folder, FolderFault};
use recordings::{Rate, header_octets};
use run_inputs::RunWords;
use sample_line::mode_of;
use shared_terms::{Both, Role};

/// The outputs are made, in the order of the words.
fn create_all<F: Folder>(folder: &mut F, words: &RunWords<'_>) -> Result<(), FolderFault>
    requires { are_apart (inputs_of (named words.now)) (outputs_of (named words.now)) ≡ true }
    ensures ok { OnOk result (Creates (F.state folder.new) (outputs_of (named words.now))) }
    ensures err { OnErr result (CreatesPart (F.state folder.old) (F.state folder.new) (outputs_of (named words.now))) }
    ensures only { OnlyOutputs (F.state folder.old) (F.state folder.new) (outputs_of (named words.now)) }
    ensures said { SaysNothing (F.state folder.old) (F.state folder.new) }
    ensures stand { OnOk result (CountsStand (F.state folder.old) (F.state folder.new)) }
    ensures fails { IfErr result (WriteFails (F.state folder.old) (F.state folder.new) (outputs_of (named words.now))) }
{
    apart_names_differ();
    let names = words.names;
    match &words.tapes {
        None => create_outputs(folder, &[names.got_o, names.got_a, names.trace]),
        Some(tapes) => create_outputs(
            folder,
            &[
                names.got_o,
                names.got_a,
                names.trace,
                tapes.orig,
                tapes.answ,
            ],
        ),
    }
}

/// A recording that holds nothing gets its header.
fn begin_tape<'a, F: Folder>(
    folder: &mut F,
    name: &'a str,
    role: Role,
) -> Result<Tape<'a>, FolderFault>
    requires { Holds (F.state folder.old) name.now [] }
    ensures ok { IfOk result (λ tape. (tape.name.now ≡ name.now) × ((c : Wire) → KeepsTape tape (F.state folder.new) c role [])) }
    ensures head { OnOk result (Holds (F.state folder.new) name.now (header_of (mode_of role))) }
    ensures err { OnErr result (HoldsFront (F.state folder.new) name.now (header_of (mode_of role))) }
    ensures only { OnlyWrites (F.state folder.old) (F.state folder.new) name.now }
    ensures stand { OnOk result (CountsStand (F.state folder.old) (F.state folder.new)) }
    ensures fails { IfErr result (WriteFails (F.state folder.old) (F.state folder.new) (name.now ∷ [])) }
{
    match append_output(
        folder,
        name,
        header_octets(Rate::Trellis, mode_of(role)).as_slice(),
    ) {
        Ok(()) => Ok(Tape::new(name, role)),
        Err(fault) => Err(fault),
    }
}

/// Both recordings get their headers, the originator's first.
fn begin_both<'a, F: Folder>(
    folder: &mut F,
    names: &Both<&'a str>,
) -> Result<Both<Tape<'a>>, FolderFault>
    requires apart { AreApart (names.now.orig.now ∷ names.now.answ.now ∷ []) }
    requires created { Creates (F.state folder.old) (names.now.orig.now ∷ names.now.answ.now ∷ []) }
    ensures ok { IfOk result (λ tapes. (tape_names (Some tapes) ≡ Some (record { orig = names.now.orig.now; answ = names.now.answ.now }))
        × ((c : Wire) → KeepTapes (Some tapes) (F.state folder.new) c [])) }
    ensures err { OnErr result (HeadsPartly (F.state folder.new) (Some (record { orig = names.now.orig.now; answ = names.now.answ.now }))) }
    ensures only { OnlyOutputs (F.state folder.old) (F.state folder.new) (names.now.orig.now ∷ names.now.answ.now ∷ []) }
    ensures said { SaysNothing (F.state folder.old) (F.state folder.new) }
    ensures stand { OnOk result (CountsStand (F.state folder.old) (F.state folder.new)) }
    ensures fails { IfErr result (WriteFails (F.state folder.old) (F.state folder.new) (names.now.orig.now ∷ names.now.answ.now ∷ [])) }
{
    let orig = match begin_tape(folder, names.orig, Role::Originator) {
        Ok(orig) => orig,
        Err(fault) => return Err(fault),
    };
    match begin_tape(folder, names.answ, Role::Answerer) {
        Ok(answ) => Ok(Both { orig, answ }),
        Err(fault) => Err(fault),
    }
}

/// The recordings get their headers, where there are any.
fn begin_tapes<'a, F: Folder>(
    folder: &mut F,
    words: &RunWords<'a>,
) -> Result<Option<Both<Tape<'a>>>, FolderFault>
    requires apart { AreApart (tapes_of (named words.now).tapes) }
    requires created { Creates (F.state folder.old) (tapes_of (named words.now).tapes) }
    ensures ok { IfOk result (λ tapes. (tape_names tapes ≡ (named words.now).tapes) × ((c : Wire) → KeepTapes tapes (F.state folder.new) c [])) }
    ensures err { OnErr result (HeadsPartly (F.state folder.new) (named words.now).tapes) }
    ensures only { OnlyOutputs (F.state folder.old) (F.state folder.new) (tapes_of (named words.now).tapes) }
    ensures said { SaysNothing (F.state folder.old) (F.state folder.new) }
    ensures stand { OnOk result (CountsStand (F.state folder.old) (F.state folder.new)) }
    ensures fails { IfErr result (WriteFails (F.state folder.old) (F.state folder.new) (tapes_of (named words.now).tapes)) }
{
    match &words.tapes {
        None => Ok(None),
        Some(names) => match begin_both(folder, names) {
            Ok(tapes) => Ok(Some(tapes)),
            Err(fault) => Err(fault),
        },
    }
}

/// All outputs are made, and then the recordings get their headers.
pub(crate) fn make_outputs<'a, F: Folder>(
    folder: &mut F,
    words: &RunWords<'a>,
) -> Result<Option<Both<Tape<'a>>>, FolderFault>
    requires { are_apart (inputs_of (named words.now)) (outputs_of (named words.now)) ≡ true }
    ensures ok { IfOk result (λ tapes. (tape_names tapes ≡ (named words.now).tapes) × ((c : Wire) → KeepTapes tapes (F.state folder.new) c [])) }
    ensures created { OnOk result (Creates (F.state folder.new) (texts_of (named words.now))) }
    ensures err { OnErr result (CreatesPart (F.state folder.old) (F.state folder.new) (outputs_of (named words.now))
        ⊎ (Creates (F.state folder.new) (texts_of (named words.now)) × HeadsPartly (F.state folder.new) (named words.now).tapes)) }
    ensures only { OnlyOutputs (F.state folder.old) (F.state folder.new) (outputs_of (named words.now)) }
    ensures said { SaysNothing (F.state folder.old) (F.state folder.new) }
    ensures stand { OnOk result (CountsStand (F.state folder.old) (F.state folder.new)) }
    ensures fails { IfErr result (WriteFails (F.state folder.old) (F.state folder.new) (outputs_of (named words.now))) }
{
    apart_names_differ();
    match create_all(folder, words) {
        Ok(()) => {}
        Err(fault) => return Err(fault),
    }
    match begin_tapes(folder, words) {
        Ok(tapes) => Ok(tapes),
        Err(fault) => Err(fault),
    }
}
