//! What holds of all runs of one end against a peer's bits. The functions do nothing but name the theorems that they rest on: each theorem is a
//! contract.
ghost use Rattle.stations.specs.OneEnd.Laws.{OneIsHeard, OnePeerRun, OnePeerTurn};
ghost use Rattle.stations.specs.OneEnd.Laws.{HearingBreaks, PeersFaultsAreHeard, OtherFaultsAreWants};

use bit_stuffing::laws::one_lent;
use detection::laws::one_pattern;
use lapm_frames::laws::one_checked;
use link_run::laws::one_lone_run;

/// One thing at most is heard in bits: a pattern and a frame never end with one of them.
pub fn one_is_heard()
    ensures { OneIsHeard }
{
    one_lent();
    one_pattern();
    one_checked();
}

/// The user's file and the peer's slots have one run at most of an end, and one next turn.
pub fn one_peer_run()
    ensures run { OnePeerRun }
    ensures turn { OnePeerTurn }
{
    one_is_heard();
    one_lone_run();
}

/// An end gives its link up as it hears exactly where its peer is at fault, and else as it is to speak.
pub fn peers_faults_are_heard()
    ensures hearing { HearingBreaks }
    ensures peers { PeersFaultsAreHeard }
    ensures wants { OtherFaultsAreWants }
{}
