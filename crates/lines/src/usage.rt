//! How a line is typed.

use std::fmt;

/// How a line is typed.
#[derive(Clone, Copy, Debug, PartialEq, Eq)]
pub struct Usage {
    /// The name of the command.
    pub name: &'static str,
    /// What is typed after it.
    pub arguments: &'static str,
}

impl fmt::Display for Usage {
    fn fmt<W: fmt::Write>(&self, f: &mut fmt::Formatter<W>) -> fmt::Result {
        let name = self.name;
        let arguments = self.arguments;
        if arguments.is_empty() {
            f.write_str(name)
        } else {
            write!(f, "{name} {arguments}")
        }
    }
}
