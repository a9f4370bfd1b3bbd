// The words of an audit.
ghost use Rattle.std.specs.Prelude.{◌≡◌, string_bytes, map};
ghost use Rattle.std.specs.Option.{option_map};
ghost use Rattle.trace_audit.specs.Words.{names_of, named};

/// The names of an audit.
#[derive(Clone, Copy)]
pub struct AuditWords<'a> {
    /// The originator's file.
    pub orig: &'a str,
    /// The answerer's file.
    pub answ: &'a str,
    /// What the line does.
    pub script: &'a str,
    /// What is to be the trace of their run.
    pub trace: &'a str,
}

/// What the words behind `audit` name, where these are such words.
pub fn audit_words(words: &[String]) -> Option<AuditWords<'_>>
    ensures { option_map named result ≡ names_of (map string_bytes words.now) }
{
    let [orig, answ, script, trace] = words else {
        return None;
    };
    Some(AuditWords {
        orig: orig.as_str(),
        answ: answ.as_str(),
        script: script.as_str(),
        trace: trace.as_str(),
    })
}
