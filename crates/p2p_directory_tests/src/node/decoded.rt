//! Frames that are decoded before they are processed.

use crate::fixtures::found_by;
use crate::node::{REPLIER, hundred};
use bytes::Bytes;
use p2p_directory::node::{Answer, Miscounted, Node, Received};
use p2p_discovery::codec::{CodecError, TestKey};
use p2p_discovery::discovery::Payload;
use std::alloc::{AllocError, Global};
use std::test::Fail;

// The bits of the two peers of the set at index 0, none of whom is known.
const QUESTION: [u8; 4] = [2, 0, 2, 0];

// A message of two bytes on channel 3.
const MESSAGE: [u8; 5] = [0, 3, 2, 7, 7];

// Whether the infos in a tested answer to a decoded frame are that of peer 1.
fn is_of_peer_one(answer: Result<Answer<TestKey>, Miscounted>) -> bool {
    match answer {
        Ok(Answer::Infos(infos)) => match infos.as_slice() {
            [only] => only.public_key == TestKey(1) && only.timestamp == 1_000,
            _ => false,
        },
        _ => false,
    }
}

// Whether the tested node decodes the question as it is, and answers the decoded frame.
fn decodes_and_answers(replier: &mut Node<TestKey>, question: Bytes) -> bool {
    match replier.decode(question) {
        Ok(decoded) => {
            let is_question = match decoded.payload() {
                Payload::BitVec(bits) => bits.index == 0 && bits.bits.len() == 2,
                _ => false,
            };
            let is_whole = decoded.frame() == QUESTION.as_slice();
            let answer = replier.answer_decoded(decoded, hundred(), &[]);
            is_question && is_whole && is_of_peer_one(answer)
        }
        Err(_) => false,
    }
}

fn copies(alloc: Global) -> Result<(Bytes, Bytes, Bytes), AllocError> {
    let one = Bytes::copy_from_slice(alloc, &QUESTION)?;
    let two = Bytes::copy_from_slice(alloc, &QUESTION)?;
    Ok((one, two, Bytes::copy_from_slice(alloc, &QUESTION)?))
}

#[test]
fn a_question_is_answered_with_infos_before_they_are_encoded(rt: HostRuntime) -> Result<(), Fail> {
    let alloc = rt.alloc();
    let (one, two, three) = copies(alloc)?;
    let told = found_by(alloc, "own=8", &REPLIER, |replier| {
        let decoded = decodes_and_answers(replier, one);
        let by_bytes = is_of_peer_one(replier.answer_with_verdicts(two, hundred(), &[]));
        let counted = replier.answer_with_verdicts(three, hundred(), &[true]);
        decoded && by_bytes && matches!(counted, Err(Miscounted))
    })?;
    assert!(rt; told);
    Ok(())
}

// Whether a decoded message of one tested node is too long for the other one.
fn is_too_long(decoder: &Node<TestKey>, receiver: &mut Node<TestKey>, message: Bytes) -> bool {
    match decoder.decode(message) {
        Ok(decoded) => matches!(
            receiver.answer_decoded(decoded, hundred(), &[]),
            Ok(Answer::Received(Received::Codec(CodecError::InvalidLength(2))))
        ),
        Err(_) => false,
    }
}

#[test]
fn a_frame_that_was_decoded_under_other_limits_is_decoded_anew(
    rt: HostRuntime,
) -> Result<(), Fail> {
    let alloc = rt.alloc();
    let message = Bytes::copy_from_slice(alloc, &MESSAGE)?;
    let refused = found_by(alloc, "own=8 max_data_length=2", &[], |decoder| {
        found_by(alloc, "max_data_length=1", &[], |receiver| {
            is_too_long(decoder, receiver, message)
        })
    })??;
    assert!(rt; refused);
    Ok(())
}
