//! What can be typed, as `--help` prints it.

use crate::calls::COMMANDS;
use crate::parse::SETTINGS;
use std::fmt;

/// What is typed instead of the words in capitals.
pub static WORDS: [(&'static str, &'static str); 13] = [
    ("P, I, PLACE", "whole numbers: a peer, an index, a position"),
    (
        "T, DRAW",
        "seconds with up to nine digits after a point; M is the maximum time",
    ),
    ("LIST", "1,2,3 or -"),
    ("BITS", "0101 or -"),
    ("HEX", "two digits for each byte, or -"),
    ("INFOS", "INFO,INFO or -"),
    (
        "INFO",
        "P@TS at 1.2.3.4 and port 8000 + P; P@TS:PORT; P@TS@ADDRESS",
    ),
    (
        "",
        "signed in the namespace of the node, or with !NAMESPACE after it in that",
    ),
    ("ADDRESS", "1.2.3.4:80, [::1]:80, ~host.name:80"),
    ("BOOL", "true, false"),
    (
        "KIND",
        "payload MAXBITS MAXPEERS MAXDATA; info; infos MIN MAX; ingress; address;",
    ),
    ("", "data MIN MAX; bits MAX"),
    (
        "FORM",
        "greeting INFO; peers INFOS; bits I BITS; data CHANNEL HEX",
    ),
];

/// What `--help` prints.
#[derive(Drop)]
pub struct Help;

impl fmt::Display for Help {
    fn fmt<W: fmt::Write>(&self, f: &mut fmt::Formatter<W>) -> fmt::Result {
        f.write_str(
            "play [--check] [FILE ..]: serves the lines of the files, or of standard input.\n\
             A node's name and a colon before a command name the node, as in 'a: tracked';\n\
             without them it is the one named last. Text from # on is left out.\n\nLines:\n",
        )?;
        commands(f)?;
        f.write_str("\nWords:\n")?;
        for (word, meaning) in &WORDS {
            writeln!(f, "  {word:<12} {meaning}")?;
        }
        f.write_str("\nSettings of a node:\n ")?;
        for (name, value) in &SETTINGS {
            write!(f, " {name}={value}")?;
        }
        Ok(())
    }
}

fn commands<W: fmt::Write>(f: &mut fmt::Formatter<W>) -> fmt::Result {
    for (name, arguments, reply) in &COMMANDS {
        writeln!(f, "  {name:<16} {arguments:<30} {reply}")?;
    }
    Ok(())
}
