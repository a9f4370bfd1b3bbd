//! What two ends of the library do, by the calls that are made of them. The functions do nothing but name the theorems that they rest on: each theorem is a
//! contract.
ghost use Rattle.gateway.specs.Histories.{HistoriesArePlays, HistoriesKeepPrefixes, SpeakingBreaksForWant, HearingNeverBreaks};

use lapm_frames::laws::one_checked;
use lapm_receiver::laws::keeps_taken;
use link_account::laws::plays;
use xid_params::laws::reads_written;

/// Whatever calls are made of two ends and whatever the line loses, they come to where a play of the link comes to, as long as neither breaks. So
/// the segments that an end gave its user are the pieces that the other took from its own, as far as they go. An end breaks as it speaks, for lack of
/// answers, and never as it receives what the other transmitted.
pub fn histories()
    ensures plays { HistoriesArePlays }
    ensures prefixes { HistoriesKeepPrefixes }
    ensures speaking { SpeakingBreaksForWant }
    ensures hearing { HearingNeverBreaks }
{
    one_checked();
    keeps_taken();
    reads_written();
    plays();
}
