// Steps of an output, and of what is printed.
ghost use Rattle.std.specs.Prelude.{[], ◌∷◌, map, OnOk, OnErr, IfErr};
ghost use Rattle.outside_calls.specs.Folder.{OnlyWrites, OnlySays, Appended, PartlyAppended, Said, PartlySaid, CountsStand};
ghost use Rattle.outside_calls.specs.Outputs.{Holds, KeptOrEmpty, AreApart, Creates, CreatesPart, OnlyOutputs, SaysNothing};
ghost use Rattle.command_base.specs.Stops.{WriteFails, SayFails};

use outside_calls::{Folder, FolderFault};

/// A file with no octets is made.
pub fn create_output<F: Folder>(folder: &mut F, name: &str) -> Result<(), FolderFault>
    ensures ok { OnOk result (Holds (F.state folder.new) name.now []) }
    ensures err { OnErr result (KeptOrEmpty (F.state folder.old) (F.state folder.new) name.now) }
    ensures only { OnlyWrites (F.state folder.old) (F.state folder.new) name.now }
    ensures fails { IfErr result (WriteFails (F.state folder.old) (F.state folder.new) (name.now ∷ [])) }
    ensures stand { OnOk result (CountsStand (F.state folder.old) (F.state folder.new)) }
{
    match folder.create(name) {
        Ok(()) => Ok(()),
        Err(fault) => Err(fault),
    }
}

/// Files with no octets are made, in this order, up to the first that can't be.
pub fn create_outputs<F: Folder>(folder: &mut F, names: &[&str]) -> Result<(), FolderFault>
    requires { AreApart (map (λ name. name.now) names.now) }
    ensures ok { OnOk result (Creates (F.state folder.new) (map (λ name. name.now) names.now)) }
    ensures err { OnErr result (CreatesPart (F.state folder.old) (F.state folder.new) (map (λ name. name.now) names.now)) }
    ensures only { OnlyOutputs (F.state folder.old) (F.state folder.new) (map (λ name. name.now) names.now) }
    ensures said { SaysNothing (F.state folder.old) (F.state folder.new) }
    ensures fails { IfErr result (WriteFails (F.state folder.old) (F.state folder.new) (map (λ name. name.now) names.now)) }
    ensures stand { OnOk result (CountsStand (F.state folder.old) (F.state folder.new)) }
{
    match names.split_first() {
        None => Ok(()),
        Some((name, others)) => match create_output(folder, name) {
            Ok(()) => create_outputs(folder, others),
            Err(fault) => Err(fault),
        },
    }
}

/// Octets are put behind what the output holds.
pub fn append_output<F: Folder>(folder: &mut F, name: &str, piece: &[u8]) -> Result<(), FolderFault>
    ensures ok { OnOk result (Appended (F.state folder.old) (F.state folder.new) name.now piece.now) }
    ensures err { OnErr result (PartlyAppended (F.state folder.old) (F.state folder.new) name.now piece.now) }
    ensures only { OnlyWrites (F.state folder.old) (F.state folder.new) name.now }
    ensures fails { IfErr result (WriteFails (F.state folder.old) (F.state folder.new) (name.now ∷ [])) }
    ensures stand { OnOk result (CountsStand (F.state folder.old) (F.state folder.new)) }
{
    match folder.append(name, piece) {
        Ok(()) => Ok(()),
        Err(fault) => Err(fault),
    }
}

/// A line is printed that stands before the last one.
pub fn say_line<F: Folder>(folder: &mut F, line: &[u8]) -> Result<(), FolderFault>
    ensures ok { OnOk result (Said (F.state folder.old) (F.state folder.new) line.now) }
    ensures err { OnErr result (PartlySaid (F.state folder.old) (F.state folder.new) line.now) }
    ensures only { OnlySays (F.state folder.old) (F.state folder.new) }
    ensures fails { IfErr result (SayFails (F.state folder.old) (F.state folder.new)) }
    ensures stand { OnOk result (CountsStand (F.state folder.old) (F.state folder.new)) }
{
    match folder.say(line) {
        Ok(()) => Ok(()),
        Err(fault) => Err(fault),
    }
}
