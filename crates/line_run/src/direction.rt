//! Theorems over the definitions alone: each theorem is a contract. The functions do nothing but name the theorems that they rest on.
ghost use Rattle.line_run.specs.Laws.{LaterLinesDisplaceNone, EmptyScriptDisplacesNone, FirstOnesFit, OneMoreFits, SlotsThatFitAreSlots, SlotsHaveSize};
ghost use Rattle.line_run.specs.Laws.{CodableFits, CodableIsSendable, SpelledInOctets, FewOctetsBesidesInformation, ShortIsCodable};
ghost use Rattle.line_run.specs.Laws.{EachIsRecorded, SlotsAreRecorded, LossStays, LossIsInEachRecording};
ghost use Rattle.line_run.specs.Laws.{NeverLost, ReceivedIsSent, SentIsReceived, HeardIsSent, NeverChance, PassesUnhindered};
ghost use Rattle.line_run.specs.Laws.{SlotsTellWhatWasSent, FaintNeverLost, FaintReceivedIsSent, FaintSentIsReceived, FaintHeardIsSent, FaintPassesUnhindered, UndisplacedIsFaint};

use detection::laws::{patterns_are_plain, seen_is_sent, sights_stay};

/// A script displaces no symbol of a role before the first that its hit lines and noise lines for that role name.
pub fn scripts_displace_by_their_lines_alone()
    ensures later { LaterLinesDisplaceNone }
    ensures empty { EmptyScriptDisplacesNone }
{}

/// Slots that fit are slots of the line, each of the same size, and more may follow them.
pub fn slots_that_fit_follow_one_another()
    ensures first { FirstOnesFit }
    ensures more { OneMoreFits }
    ensures slots { SlotsThatFitAreSlots }
    ensures size { SlotsHaveSize }
{
    patterns_are_plain();
}

/// What can be coded fits, and a frame can be coded in slots of enough symbols.
pub fn codable_slots_fit()
    ensures fits { CodableFits }
    ensures sendable { CodableIsSendable }
    ensures octets { SpelledInOctets }
    ensures few { FewOctetsBesidesInformation }
    ensures short { ShortIsCodable }
{}

/// The bits of a slot tell what was sent in it: of all that can be coded there, one thing alone has these bits.
pub fn slots_tell_what_was_sent()
    ensures { SlotsTellWhatWasSent }
{
    patterns_are_plain();
}

/// Whatever the script, each list of bits in fours has a recording.
pub fn each_list_of_fours_is_recorded()
    ensures bits { EachIsRecorded }
    ensures slots { SlotsAreRecorded }
{
    patterns_are_plain();
}

/// A line that is lost within a slot is lost with the same symbol in the recording of the whole slot and of all that follow.
pub fn losses_stay()
    ensures stays { LossStays }
    ensures each { LossIsInEachRecording }
{}

/// A line is not lost before a symbol is displaced.
pub fn undisplaced_lines_are_never_lost()
    ensures { NeverLost }
{}

/// Where no symbol is displaced up to the end of a slot, what is received in it is what was sent in it and nothing else, whatever slots
/// came before.
pub fn received_is_sent()
    ensures nothing_else { ReceivedIsSent }
    ensures all { SentIsReceived }
{
    patterns_are_plain();
    sights_stay();
    seen_is_sent();
}

/// So each slot up to then passes, and is heard as what was sent in it. A message that a line of the script loses is lost, and no slot is a chance
/// match.
pub fn heard_is_sent()
    ensures heard { HeardIsSent }
    ensures never_chance { NeverChance }
    ensures passes { PassesUnhindered }
{
    patterns_are_plain();
    sights_stay();
    seen_is_sent();
}

/// Noise is faint where no symbol is displaced. A line is not lost while it is.
pub fn faint_lines_are_never_lost()
    ensures undisplaced { UndisplacedIsFaint }
    ensures never { FaintNeverLost }
{}

/// Where noise is faint up to the end of a slot, and slots are long enough, what is received in it is what was sent in it and nothing else,
/// and it is heard so.
pub fn what_is_received_of_faint_lines_is_sent()
    ensures nothing_else { FaintReceivedIsSent }
    ensures all { FaintSentIsReceived }
    ensures heard { FaintHeardIsSent }
    ensures passes { FaintPassesUnhindered }
{
    patterns_are_plain();
    sights_stay();
    seen_is_sent();
}
