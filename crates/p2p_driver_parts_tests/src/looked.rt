//! The frame of a link that may be handed in next.

use p2p_driver::looked::Looked;
use std::process::Abort;
use std::test::Fail;

#[test]
fn a_frame_has_the_length_and_begins_with_the_bytes(rt: HostRuntime) -> Result<(), Fail> {
    let looked = Looked::new(&[7, 8], 3);
    assert!(rt; looked.is_of(&[7, 8, 9]) && looked.is_of(&[7, 8, 0]));
    assert!(rt; !looked.is_of(&[7, 8]) && !looked.is_of(&[7, 8, 9, 9]));
    assert!(rt; !looked.is_of(&[8, 8, 9]) && !looked.is_of(&[7, 7, 9]));
    assert!(rt; !looked.is_of(&[]));
    Ok(())
}

#[test]
fn eleven_bytes_count(rt: HostRuntime) -> Result<(), Fail> {
    let looked = Looked::new(&[1, 2, 3, 4, 5, 6, 7, 8, 9, 10, 11, 12], 12);
    assert!(rt; looked.is_of(&[1, 2, 3, 4, 5, 6, 7, 8, 9, 10, 11, 12]));
    assert!(rt; looked.is_of(&[1, 2, 3, 4, 5, 6, 7, 8, 9, 10, 11, 0]));
    assert!(rt; !looked.is_of(&[1, 2, 3, 4, 5, 6, 7, 8, 9, 10, 0, 12]));
    Ok(())
}

#[test]
fn there_are_frames_without_bytes(rt: HostRuntime) -> Result<(), Fail> {
    assert!(rt; Looked::new(&[], 0).is_of(&[]));
    assert!(rt; Looked::new(&[], 2).is_of(&[5, 6]));
    assert!(rt; !Looked::new(&[0], 0).is_of(&[]));
    assert!(rt; !Looked::new(&[1, 2, 3], 2).is_of(&[1, 2]));
    Ok(())
}
