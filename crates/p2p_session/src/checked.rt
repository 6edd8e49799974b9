//! The frame that was checked last.

ghost use Rattle.std.specs.Prelude.{◌≡◌, IfSome};

use p2p_directory::node::Decoded;
use p2p_discovery::codec::PublicKey;
use std::marker::Model;

/// The frame that was checked last, decoded, if it wasn't received since. Contracts see nothing of
/// it: with it and without it, each call returns the same, or want of memory where that is allowed.
#[derive(Drop)]
pub struct Checked<C: PublicKey> {
    last: Option<Decoded<C>>,
}

impl<C: PublicKey> Model for Checked<C> {
    ghost Value = { Unit {0} };

    ghost view = { λ _. tt };
}

impl<C: PublicKey> Checked<C> {
    /// No frame was checked yet.
    pub fn new() -> Checked<C> {
        Checked { last: None }
    }

    /// Keeps this frame as the one that was checked last, in place of the one before.
    pub fn keep(&mut self, decoded: Decoded<C>) {
        self.last = Some(decoded);
    }

    /// The frame that was checked last, if it is this one. It isn't kept any longer.
    pub fn take(&mut self, frame: &[u8]) -> Option<Decoded<C>>
        ensures { IfSome result (λ d. d.frame ≡ frame.now) }
    {
        match &self.last {
            Some(last) if last.frame() == frame => self.last.take(),
            _ => None,
        }
    }
}
