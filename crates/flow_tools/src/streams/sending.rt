//! Whole texts are written in few calls: lines are gathered, and a slice that was taken in part is continued.
ghost use Rattle.flow_tools.specs.streams.Streams.{over};
ghost use Rattle.flow_tools.specs.streams.Sending.{IsPut};

use crate::streams::{Failed, Output};
use arrayvec::ArrayVec;

/// Lines that wait to be put, 64 KiB at most, so that one put takes thousands of them.
pub(crate) type Gathered = ArrayVec<u8, 65536>;

/// Puts all of the bytes, in as many calls as it takes.
///
/// # Errors
///
/// `Failed` where a put failed. A beginning of the bytes was then taken.
#[tactic(auto, using(crate::proofs::streams::SendLemmas::sends))]
pub fn put_all<O: Output>(out: &mut O, bytes: &[u8]) -> Result<(), Failed>
    ensures { IsPut bytes.now (over (O.state out.old) (O.state out.new)) result }
{
    let mut rest = bytes;
    while !rest.is_empty() {
        let count = out.put(rest)?;
        rest = &rest[count..];
    }
    Ok(())
}
