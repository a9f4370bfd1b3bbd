// Turns of a run, each compared with the octets of a name, up to the end of the run.
ghost use Rattle.std.specs.Prelude.{◌≡◌, ◌+◌, [], List, ℕ, IfOk, IfErr, Ok, true, false};
ghost use Rattle.outside_calls.specs.Folder.{OnlyReads};
ghost use Rattle.outside_calls.specs.Outputs.{AreApartFrom};
ghost use Rattle.shared_terms.specs.Both.{Both};
ghost use Rattle.link_run.specs.Run.{start};
ghost use Rattle.line_run.specs.Scripted.{link_of};
ghost use Rattle.command_base.specs.Stops.{EndCounts};
ghost use Rattle.line_run.specs.Names.{inputs_of, outputs_of, written};
ghost use Rattle.line_world.specs.World.{IsReady, WorldAfter, script_of, turn_of};
ghost use Rattle.line_ends.specs.Plain.{AsksInOctets};
ghost use Rattle.trace_audit.specs.Turns.{AreCompared, IsReading, RunIs, audit_inputs, found_end};

use crate::comparing::{compare_text, read_on};
use crate::watching::make_turn;
use crate::{Comparison, Difference};
use command_base::{Status, Stop};
use line_world::laws::turns_are_few;
use line_world::{Names, World};
use outside_calls::Folder;

/// One turn is made, and its lines are compared: whether the run goes on behind it.
fn audit_turn<F: Folder>(
    world: &mut World,
    folder: &mut F,
    names: &Names<'_>,
    trace: &str,
    comparison: &mut Comparison,
) -> Result<bool, Stop>
    requires ready { IsReady world.old }
    requires apart { AreApartFrom (inputs_of (written names.now)) (outputs_of (written names.now)) }
    requires asks { AsksInOctets (script_of world.old) }
    requires compared { AreCompared true world.old (F.state folder.old) (written names.now) trace.now comparison.old }
    ensures compared { IfOk result (λ goes_on. AreCompared goes_on world.new (F.state folder.new) (written names.now) trace.now comparison.new) }
    ensures script { script_of world.new ≡ script_of world.old }
    ensures ready { result ≡ Ok true → IsReady world.new }
    ensures number { result ≡ Ok true → turn_of world.new ≡ turn_of world.old + 1 }
    ensures stops { IfErr result IsReading }
    ensures reads { OnlyReads (F.state folder.old) (F.state folder.new) }
    ensures counts { EndCounts (F.state folder.old) (F.state folder.new) (audit_inputs (written names.now) trace.now) [] result }
{
    turns_are_few();
    let made = match make_turn(world, folder, names) {
        Ok(made) => made,
        Err(stop) => return Err(stop),
    };
    match compare_text(folder, trace, made.text.as_slice(), comparison) {
        Ok(()) => Ok(made.goes_on),
        Err(stop) => Err(stop),
    }
}

/// All turns of a run are made and compared.
fn audit_turns<F: Folder>(
    world: &mut World,
    folder: &mut F,
    names: &Names<'_>,
    trace: &str,
) -> Result<Comparison, Stop>
    requires ready { IsReady world.old }
    requires first { (files : Both (List ℕ)) → WorldAfter world.old files [] (start (link_of (script_of world.old) files)) }
    requires apart { AreApartFrom (inputs_of (written names.now)) (outputs_of (written names.now)) }
    requires asks { AsksInOctets (script_of world.old) }
    ensures compared { IfOk result (λ comparison. AreCompared false world.new (F.state folder.new) (written names.now) trace.now comparison) }
    ensures script { script_of world.new ≡ script_of world.old }
    ensures stops { IfErr result IsReading }
    ensures reads { OnlyReads (F.state folder.old) (F.state folder.new) }
    ensures counts { EndCounts (F.state folder.old) (F.state folder.new) (audit_inputs (written names.now) trace.now) [] result }
{
    turns_are_few();
    let mut comparison = Comparison::new();
    loop {
        match audit_turn(world, folder, names, trace, &mut comparison) {
            Ok(true) => {}
            Ok(false) => return Ok(comparison),
            Err(stop) => return Err(stop),
        }
    }
}

/// What was found of a trace, as an audit ends by it.
fn found_end(found: Result<u64, Difference>) -> Result<u64, Stop>
    ensures { result ≡ found_end found }
{
    match found {
        Ok(lines) => Ok(lines),
        Err(Difference { line, cause }) => Err(Stop::Own(Status::AuditNo { line, cause })),
    }
}

/// Where the octets of a name are the trace of a world's run up to its end, how many lines it has.
pub(crate) fn audit_world<F: Folder>(
    world: &mut World,
    folder: &mut F,
    names: &Names<'_>,
    trace: &str,
) -> Result<u64, Stop>
    requires ready { IsReady world.old }
    requires first { (files : Both (List ℕ)) → WorldAfter world.old files [] (start (link_of (script_of world.old) files)) }
    requires apart { AreApartFrom (inputs_of (written names.now)) (outputs_of (written names.now)) }
    requires asks { AsksInOctets (script_of world.old) }
    ensures run { RunIs (script_of world.old) (F.state folder.new) (written names.now) trace.now result }
    ensures reads { OnlyReads (F.state folder.old) (F.state folder.new) }
    ensures counts { EndCounts (F.state folder.old) (F.state folder.new) (audit_inputs (written names.now) trace.now) [] result }
{
    let comparison = match audit_turns(world, folder, names, trace) {
        Ok(comparison) => comparison,
        Err(stop) => return Err(stop),
    };
    let mut behind = [0; 1];
    match read_on(folder, trace, &comparison, &mut behind) {
        Ok(count) => found_end(comparison.end(&behind[..count])),
        Err(stop) => Err(stop),
    }
}
