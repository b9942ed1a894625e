ghost use Rattle.std.specs.Prelude.{◌≡◌};
ghost use Rattle.agg_check.specs.findings.Findings.{is_mistake};

use agg_values::Text;
use std::fmt;

/// Whether a walk goes on.
#[derive(Clone, Copy, Debug, PartialEq, Eq)]
pub enum Severity {
    /// A walk doesn't go on to its pages.
    Mistake,
    /// A walk goes on, perhaps in another way than is meant.
    Warning,
}

/// Something that is wrong with an input.
#[derive(Debug, Drop)]
pub struct Finding {
    /// The line, from 1.
    pub line: u64,
    /// The byte of the line, from 1.
    pub column: usize,
    pub severity: Severity,
    /// The members that lead to it, as `header.request.by_shop`; empty for a whole line.
    pub path: Text,
    pub what: Text,
}

impl Finding {
    /// Whether the walk doesn't go on for it.
    pub fn is_mistake(&self) -> bool
        ensures { result ≡ is_mistake self.now }
    {
        matches!(self.severity, Severity::Mistake)
    }
}

// To stand after the name of a file and a colon.
impl fmt::Display for Finding {
    fn fmt<W: fmt::Write>(&self, f: &mut fmt::Formatter<W>) -> fmt::Result {
        write!(f, "{}:{}: ", self.line, self.column)?;
        if let Severity::Warning = self.severity {
            f.write_str("warning: ")?;
        }
        if !self.path.as_str().is_empty() {
            write!(f, "{}: ", self.path.as_str())?;
        }
        f.write_str(self.what.as_str())
    }
}
