//! Theorems of scripts' texts.
ghost use Rattle.std.specs.Prelude.{◌≡◌};
ghost use Rattle.noise_script.specs.declared.limits.TheConstants.{SCRIPT_OCTETS, LOSE_LINES, HIT_LINES, NOISE_LINES, BREAK_LINES, BUSY_LINES};
ghost use Rattle.noise_script.specs.Noisy.{NoisyLinesSpell};
ghost use Rattle.noise_script.specs.Laws.{BreaksInOrder, EachHasAnswer, ScriptsAreOne, FaultsAreOne, NoFaultInScripts, LinesFromFront, WordsFromFront, SpelledIsInLimits, BreaksAreOctets};

/// Each text spells one script, or has one first fault with one cause, and never both.
pub fn one_answer()
    ensures some { EachHasAnswer }
    ensures scripts { ScriptsAreOne }
    ensures faults { FaultsAreOne }
    ensures apart { NoFaultInScripts }
{}

/// Lines and words from the front, as a reader meets them.
pub fn cuts()
    ensures lines { LinesFromFront }
    ensures words { WordsFromFront }
{}

/// A script's breaks are those of its text, in rising order of turn, and those of one turn as they stand there.
pub fn breaks_in_order()
    ensures { BreaksInOrder }
{}

/// What a text spells is within the limits of scripts, and its breaks have lengths of one octet.
pub fn spelled_scripts_are_in_limits()
    ensures limits { SpelledIsInLimits }
    ensures breaks { BreaksAreOctets }
{}

/// A line on delays, then lines on noise and lines on losses spell the script that says just that.
pub fn noisy_lines_spell()
    ensures { NoisyLinesSpell }
{}

/// How much a script may hold: 65,536 octets, 1,024 lines `lose`, as many lines `hit`, and 64 lines each of `noise`,
/// `break` and `busy`.
pub fn limits_of_scripts()
    ensures octets { SCRIPT_OCTETS ≡ 65536 }
    ensures lose { LOSE_LINES ≡ 1024 }
    ensures hit { HIT_LINES ≡ 1024 }
    ensures noise { NOISE_LINES ≡ 64 }
    ensures breaks { BREAK_LINES ≡ 64 }
    ensures busy { BUSY_LINES ≡ 64 }
{}
