// Which of the two ends an end is.
ghost use Rattle.std.specs.Prelude.{◌≡◌, ◌≤◌, length, IfSome};
ghost use Rattle.shared_terms.specs.Role.{is_originator, other, role_word, role_named};

/// An end of the link: the one that called, or the one that answered.
#[derive(Clone, Copy, PartialEq, Eq)]
pub enum Role {
    /// `orig`: it calls.
    Originator,
    /// `answ`: it is called.
    Answerer,
}

impl Role {
    ghost use Rattle.shared_terms.specs.declared.role.Role.{Role};

    /// Whether this is the end that called.
    pub fn is_originator(self) -> bool
        ensures { result ≡ is_originator self }
    {
        match self {
            Role::Originator => true,
            Role::Answerer => false,
        }
    }

    /// The end at the other side of the line.
    pub fn other(self) -> Role
        ensures { result ≡ other self }
    {
        match self {
            Role::Originator => Role::Answerer,
            Role::Answerer => Role::Originator,
        }
    }

    /// The word that names the end in scripts, traces and printed lines: four ASCII characters.
    pub fn word(self) -> &'static str
        ensures word { result.now ≡ role_word self }
        ensures short { length result.now ≤ 4 }
    {
        match self {
            Role::Originator => "orig",
            Role::Answerer => "answ",
        }
    }

    /// The end that a word names, given as ASCII characters. It is None where the word names none.
    pub fn of_word(word: &[u8]) -> Option<Role>
        ensures named { result ≡ role_named word.now }
        ensures some { IfSome result (λ role. word.now ≡ role_word role) }
        ensures none { result ≡ None → (role : Role) → word.now ≡ role_word role → ⊥ }
    {
        if word == b"orig".as_slice() {
            return Some(Role::Originator);
        }
        if word == b"answ".as_slice() {
            return Some(Role::Answerer);
        }
        None
    }
}
