//! What becomes of a frame that comes on a link.

use crate::actions::Why;
use std::ops::Range;
use std::time::Duration;

/// Whether a frame may be read, of which the first bytes are there.
#[derive(Clone, Copy, Debug, PartialEq, Eq)]
pub enum Read {
    /// It is to be read now, and handed in then.
    Now,
    /// It isn't to be read before this steady time: it is to be asked for again then.
    After(Duration),
    /// Another frame of the link waits for verdicts: it is to be asked for again after those.
    Judging,
    /// The link is closing, or is closed by this.
    Closing,
    /// There is no such link.
    Unknown,
}

/// What becomes of a frame that came.
#[derive(Clone, Debug, PartialEq, Eq, Drop)]
pub enum Admission {
    /// There is no such link. Nothing has changed.
    Unknown,
    /// The link is closing. Nothing has changed.
    Closing,
    /// It isn't the frame for which `length` said `Now` last on this link: it has another length,
    /// other first bytes, or none was asked for; or another frame waits for verdicts. Nothing has
    /// changed.
    Unasked,
    /// It is a list of infos that nobody asked for. It isn't read.
    Ignored,
    /// It waits for so many verdicts: whether the signatures of its first infos are valid.
    Verify(usize),
    /// It is done with.
    Heard(Heard),
}

/// What came of a frame that is done with.
#[derive(Clone, Debug, PartialEq, Eq, Drop)]
pub enum Heard {
    /// The peer has greeted: its info was applied, and it is asked.
    Greeted,
    /// So many infos were applied.
    Applied(usize),
    /// A question was answered.
    Answered,
    /// An allocation failed, or the queue of the link has no room for a reply. Nothing has changed,
    /// and the frame or the verdicts may be handed in again.
    Dropped,
    /// A message is to be delivered.
    Message {
        /// On which channel.
        channel: u64,
        /// Which bytes of the frame it is.
        message: Range<usize>,
    },
    /// The link is closed, and why.
    Closing(Why),
}

/// No frame of such a link waits for so many verdicts. Nothing has changed.
#[derive(Clone, Copy, Debug, PartialEq, Eq)]
pub struct Misjudged;
