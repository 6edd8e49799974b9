//! The name that was meant.

use crate::calls::COMMANDS;
use crate::parse::settings::SETTINGS;

/// The nearest command to a mistyped word: that which shares the longest prefix with it, and of
/// those the nearest in length.
pub fn nearest_command(word: &str) -> &'static str {
    COMMANDS
        .iter()
        .map(|command| command.0)
        .max_by_key(|name| likeness(word, name))
        .unwrap_or("node")
}

/// The nearest setting to a mistyped word: that which shares the longest prefix with it, and of
/// those the nearest in length.
pub fn nearest_setting(word: &str) -> &'static str {
    SETTINGS
        .iter()
        .map(|setting| setting.0)
        .max_by_key(|name| likeness(word, name))
        .unwrap_or("own")
}

// How near two words are: how many bytes their common prefix has, and how near their lengths are.
fn likeness(left: &str, right: &str) -> (usize, usize) {
    let alike = left
        .bytes()
        .zip(right.bytes())
        .take_while(|(left, right)| left == right)
        .count();
    (alike, usize::MAX - left.len().abs_diff(right.len()))
}
