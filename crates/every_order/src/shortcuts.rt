// The shortcuts that document 01 says tell a board wrong.
use std::fmt;

#[derive(Clone, Copy, PartialEq, Eq)]
pub(crate) enum Shortcut {
    // Trying only the order of starts.
    Starts,
    // Refusing a duty because anyone revokes the role earlier.
    RevokedEarlier,
    // Treating touching windows as ordered.
    Touching,
    // Forgetting barred roles.
    Unbarred,
    // Reading conditions on the doer.
    OnDoer,
    // Naming duties by place: this one tells a failing order wrong, and no verdict.
    Places,
}

impl Shortcut {
    // How many there are.
    pub(crate) const COUNT: usize = 6;

    // All of them.
    pub(crate) const ALL: [Shortcut; Shortcut::COUNT] = [
        Shortcut::Starts,
        Shortcut::RevokedEarlier,
        Shortcut::Touching,
        Shortcut::Unbarred,
        Shortcut::OnDoer,
        Shortcut::Places,
    ];
}

impl fmt::Display for Shortcut {
    fn fmt<W: fmt::Write>(&self, f: &mut fmt::Formatter<W>) -> fmt::Result {
        f.write_str(match self {
            Shortcut::Starts => "the order of starts alone",
            Shortcut::RevokedEarlier => "refusing after any revoke",
            Shortcut::Touching => "touching windows as ordered",
            Shortcut::Unbarred => "forgetting barred roles",
            Shortcut::OnDoer => "conditions on the doer",
            Shortcut::Places => "naming duties by place",
        })
    }
}
