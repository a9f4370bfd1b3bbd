// In what a trace differs from that of a run.
ghost use Rattle.std.specs.Prelude.{◌≡◌, ◌≤◌, length};
ghost use Rattle.shared_terms.specs.AuditCause.{audit_word};

/// In what the first line of a trace differs that isn't the run's.
#[derive(Clone, Copy, PartialEq, Eq)]
pub enum AuditCause {
    /// The trace stops before the line or within it, and what it has of it agrees.
    End,
    /// The run has no such line.
    Beyond,
    /// The line is no line of a trace.
    Spelling,
    /// The turn.
    Turn,
    /// The role.
    Role,
    /// What arrived.
    Arrived,
    /// What was sent.
    Sent,
    /// The break that was given.
    Break,
}

impl AuditCause {
    /// The word that says the cause, as ASCII characters.
    pub fn word(self) -> &'static str
        ensures word { result.now ≡ audit_word self }
        ensures short { length result.now ≤ 8 }
    {
        match self {
            AuditCause::End => "end",
            AuditCause::Beyond => "beyond",
            AuditCause::Spelling => "spelling",
            AuditCause::Turn => "turn",
            AuditCause::Role => "role",
            AuditCause::Arrived => "arrived",
            AuditCause::Sent => "sent",
            AuditCause::Break => "break",
        }
    }
}
