//! Whether a value's printed form is a given text.

use std::fmt::{self, Display, Write};

// What remains to be printed of a text.
#[derive(Drop)]
struct Rest<'a> {
    text: &'a [u8],
}

impl Write for Rest<'_> {
    fn write_str(&mut self, text: &str) -> fmt::Result {
        match self.text.strip_prefix(text.as_bytes()) {
            Some(rest) => {
                self.text = rest;
                Ok(())
            }
            None => Err(fmt::Error),
        }
    }
}

/// Whether the value's printed form is the expected text. It doesn't allocate.
pub fn is_printed_as(value: &impl Display, text: &str) -> bool {
    let mut rest = Rest {
        text: text.as_bytes(),
    };
    match write!(rest, "{value}") {
        Ok(()) => rest.text.is_empty(),
        Err(_) => false,
    }
}
