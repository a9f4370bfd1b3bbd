// In which order outputs grow where a call of the folder fails: what a scenario can't say, since it goes by the lengths of two of them.
use super::stage::{Stage, stage_behind};

/// A pair of small links, which is done.
const PAIR: &str = "\
file a \"a\"
file b \"b\"
file s \"\"
ask pair a b a b s go1 ga1 go2 ga2 t1 t2
exit 0";

/// A recorded run.
const RECORDED: &str = "\
file o \"a\"
file a \"b\"
file s \"\"
ask record o a s go ga t ro ra
exit 0";

/// A slot's octets in a recording.
const SLOT: usize = 1856;

/// Whether both traces of the pair have the lines of all turns that were made where this call fails: those of this round too, where its link is the
/// first. Of each such call that fails so that an output isn't written it is counted how far the first one is ahead.
fn stops_both(stage: &Stage, number: u64, even: &mut u32, ahead: &mut u32) -> Option<bool> {
    let ran = stage.run_over(&stage.words, &[number])?;
    let unwritten = u32::from(ran.code == 6);
    let lines = ran.count_lines("t1").wrapping_sub(ran.count_lines("t2"));
    if lines == 0 {
        *even = even.saturating_add(unwritten);
    } else {
        *ahead = ahead.saturating_add(unwritten);
    }
    Some(lines == 0 || lines == 2)
}

/// Where a trace isn't written in a round, the other one has the lines of the turns that were made.
#[test]
fn a_trace_that_is_not_written_stops_both_links(rt: HostRuntime) {
    let stage = stage_behind(&rt, rt.alloc(), "order.rt, PAIR", 1, PAIR);
    let mut even = 0u32;
    let mut ahead = 0u32;
    for number in 1..stage.ran.folder.calls() {
        let holds = stops_both(&stage, number, &mut even, &mut ahead) == Some(true);
        assert!(rt; holds, "{number}");
    }
    assert!(rt; even > 13 && ahead > 13);
}

/// Whether both recordings are so long as each other where this call fails, or the originator's up to a slot longer.
fn is_in_order(stage: &Stage, number: u64) -> Option<bool> {
    let ran = stage.run_over(&stage.words, &[number])?;
    let orig = ran.left("ro").unwrap_or_default().len();
    let answ = ran.left("ra").unwrap_or_default().len();
    Some(answ <= orig && orig <= answ.saturating_add(SLOT))
}

/// The originator's recording is a slot ahead of the answerer's at most.
#[test]
fn the_originator_s_recording_comes_first(rt: HostRuntime) {
    let stage = stage_behind(&rt, rt.alloc(), "order.rt, RECORDED", 1, RECORDED);
    for number in 1..=stage.ran.folder.calls() {
        assert!(rt; is_in_order(&stage, number) == Some(true), "{number}");
    }
}
