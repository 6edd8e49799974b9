//! Directories and nodes that are started while memory may be refused.

ghost use Rattle.std.specs.Prelude.{◌<◌, ◌-◌, ◌^◌};
ghost use Rattle.std.specs.Int.NonZero.{non_zero_usize_get};

use crate::told::{compares, end, mark, words_of};
use lines::{Unreadable, setup};
use p2p_directory::directory::Directory;
use p2p_directory::node::{Node, Setup};
use p2p_discovery::codec::TestKey;
use std::alloc::{AllocError, Global};
use std::fmt::Write;

// More bootstrappers than one node of a tree holds; one key occurs twice, and the local key is
// among them.
const SETTINGS: &str = "boot=1@1.2.3.4:8001,2@1.2.3.4:8002,3@1.2.3.4:8003,4@1.2.3.4:8004,\
    5@1.2.3.4:8005,6@1.2.3.4:8006,7@1.2.3.4:8007,8@1.2.3.4:8008,9@1.2.3.4:8009,\
    10@1.2.3.4:8010,11@1.2.3.4:8011,12@1.2.3.4:8012,13@1.2.3.4:8013,14@1.2.3.4:8014,\
    15@1.2.3.4:8015,16@1.2.3.4:8016,17@1.2.3.4:8017,1@1.2.3.4:8018";

// Tells what was started, or that memory was refused; then it is made again.
fn compares_with(
    alloc: Global,
    text: &mut String,
    made: Option<&Directory<TestKey>>,
    again: &Directory<TestKey>,
) -> Result<bool, AllocError> {
    match made {
        Some(directory) => {
            let words = words_of(alloc, directory)?;
            compares(
                text,
                "made and made again",
                &words,
                &words_of(alloc, again)?,
            )
        }
        None => {
            write!(
                text,
                "out of memory\nmade again: {} peers\n",
                again.tracked()
            )?;
            Ok(again.tracked() == 16)
        }
    }
}

// Tells what was started, and ends it and what was made again.
fn tells_and_ends(
    alloc: Global,
    text: &mut String,
    made: Result<Directory<TestKey>, AllocError>,
    again: Result<Directory<TestKey>, AllocError>,
) -> Result<bool, AllocError> {
    let told = match &again {
        Ok(again) => compares_with(alloc, text, made.as_ref().ok(), again),
        Err(AllocError) => Err(AllocError),
    };
    if let Ok(made) = made {
        end(made);
    }
    if let Ok(again) = again {
        end(again);
    }
    told
}

// Starts the directory of a node with this setup, to which memory may be refused.
fn init(alloc: Global, setup: Setup<TestKey>) -> Result<Directory<TestKey>, AllocError>
    requires { non_zero_usize_get setup.cfg.max_sets < 2 ^ 64 - 1 }
{
    let Setup {
        bootstrappers,
        myself,
        cfg,
        ..
    } = setup;
    Directory::init(alloc, bootstrappers, myself, cfg)
}

/// Starts a directory by `Directory::init` while memory may be refused.
pub fn directory(alloc: Global, text: &mut String) -> Result<bool, Unreadable> {
    let given = setup(alloc, SETTINGS)?;
    let other = setup(alloc, SETTINGS)?;
    mark(alloc);
    let made = init(alloc, given);
    mark(alloc);
    let again = init(alloc, other);
    Ok(tells_and_ends(alloc, text, made, again)?)
}

// The directory that remains of a node that was started unless memory was refused.
fn finished(made: Result<Node<TestKey>, AllocError>) -> Result<Directory<TestKey>, AllocError> {
    match made {
        Ok(node) => Ok(node.finish()),
        Err(AllocError) => Err(AllocError),
    }
}

/// Starts a node by `Node::new` while memory may be refused.
pub fn node(alloc: Global, text: &mut String) -> Result<bool, Unreadable> {
    let given = setup(alloc, SETTINGS)?;
    let other = setup(alloc, SETTINGS)?;
    mark(alloc);
    let made = Node::new(alloc, given);
    mark(alloc);
    let again = finished(Node::new(alloc, other));
    Ok(tells_and_ends(alloc, text, finished(made), again)?)
}
