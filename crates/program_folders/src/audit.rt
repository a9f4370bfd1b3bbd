// The folder of an audit.
ghost use Rattle.std.specs.Prelude.{◌≡◌, ◌≤◌, []};
ghost use Rattle.std.specs.Prelude.{refl};
ghost use Rattle.std.proofs.Common.{◌∙◌};
ghost use Rattle.outside_calls.specs.Folder.{raised};
ghost use Rattle.program_folders.specs.Audited.{audit_state, swallowed};
ghost use Rattle.program_folders.specs.Passed.{OnlyPassed, OnlyPassed-refl, OnlyPassed-trans};

use crate::transfer::copy_from;
use frame_check::Octets;
use outside_calls::{Folder, FolderFault};

/// A folder over another one, for an audit. Reads go on to that one. Of what is written to the outputs of a run only the trace is held, up to
/// HELD octets, which are as many as one turn writes.
#[derive(Drop)]
pub struct AuditFolder<'a, F, const HELD: usize> {
    /// The folder handed in.
    inner: &'a mut F,
    /// What the originator received: not held.
    got_o: &'a str,
    /// What the answerer received: not held.
    got_a: &'a str,
    /// The trace.
    trace: &'a str,
    /// The octets of the trace.
    text: Octets<HELD>,
    /// How many times memory was refused for the trace; it stands still at its last value.
    refusals: u64,
}

impl<'a, F: Folder, const HELD: usize> AuditFolder<'a, F, HELD> {
    /// A folder over that one which holds no octet.
    pub fn new(
        inner: &'a mut F,
        got_o: &'a str,
        got_a: &'a str,
        trace: &'a str,
    ) -> AuditFolder<'a, F, HELD>
        ensures same_reference { result.inner.ghost_name ≡ inner.entry.ghost_name }
        ensures inner { result.inner.now ≡ inner.old }
        ensures got_o { result.got_o.now ≡ got_o.now }
        ensures got_a { result.got_a.now ≡ got_a.now }
        ensures trace { result.trace.now ≡ trace.now }
        ensures text { result.text ≡ [] }
        ensures refusals { result.refusals ≡ 0 }
    {
        AuditFolder {
            inner,
            got_o,
            got_a,
            trace,
            text: Octets::new(),
            refusals: 0,
        }
    }

    /// The octets of the trace.
    pub fn text(&self) -> Octets<HELD>
        ensures { result ≡ self.now.text }
    {
        self.text.copy()
    }
}

/// One refusal of memory more.
fn refused(refusals: &mut u64) -> FolderFault
    ensures fault { result ≡ FolderFault.NoMemory }
    ensures count { refusals.new ≡ raised refusals.old }
    ensures more { refusals.old ≤ refusals.new }
{
    *refusals = refusals.saturating_add(1);
    FolderFault::NoMemory
}

impl<F: Folder, const HELD: usize> Folder for AuditFolder<'_, F, HELD> {
    ghost state = { λ f. audit_state (F.state f.inner.now)
        (swallowed f.got_o.now f.got_a.now f.trace.now) f.text f.refusals };

    // The same reference, and the same names.
    ghost came = { λ a b. (b.inner.ghost_name ≡ a.inner.ghost_name)
        × (swallowed b.got_o.now b.got_a.now b.trace.now ≡ swallowed a.got_o.now a.got_a.now a.trace.now)
        × OnlyPassed (F.state a.inner.now) (F.state b.inner.now) a.refusals b.refusals };

    ghost came_none = { λ a. (refl, refl, OnlyPassed-refl (F.state a.inner.now) a.refusals) };

    ghost came_on = { λ a b c p q. (q.0 ∙ p.0, q.1 ∙ p.1, OnlyPassed-trans p.2 q.2) };

    fn read_at(&mut self, name: &str, at: u64, buf: &mut [u8]) -> Result<usize, FolderFault> {
        if name == self.trace {
            return Ok(copy_from(self.text.as_slice(), at, buf));
        }
        self.inner.read_at(name, at, buf)
    }

    fn create(&mut self, name: &str) -> Result<(), FolderFault> {
        if name == self.trace {
            self.text.clear();
            return Ok(());
        }
        if name == self.got_o || name == self.got_a {
            return Ok(());
        }
        Err(refused(&mut self.refusals))
    }

    fn append(&mut self, name: &str, piece: &[u8]) -> Result<(), FolderFault> {
        if name == self.trace {
            if piece.len() > HELD - self.text.len() {
                return Err(refused(&mut self.refusals));
            }
            self.text.extend(piece);
            return Ok(());
        }
        if name == self.got_o || name == self.got_a {
            return Ok(());
        }
        Err(refused(&mut self.refusals))
    }

    fn say(&mut self, _piece: &[u8]) -> Result<(), FolderFault> {
        Ok(())
    }
}
