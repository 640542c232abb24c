//! Plays the script on standard input, and writes its listing, and the line of a stop, to standard output.
#![tactic(auto)]

use script::run::{MOST, play};
use std::io;
use std::io::{Read, Write};

fn main(rt: HostRuntime) -> io::Result<()> {
    let heap = rt.alloc();
    let mut script = Vec::new(heap);
    // one byte more than the longest script, so that a longer one is seen
    rt.stdin().take(MOST as u64 + 1).read_to_end(&mut script)?;
    let mut listing = vec![in heap; 0u8; MOST]?;
    let bytes = listing.as_mut_slice();
    let ran = play(script.as_slice(), bytes);
    let written = ran.written;
    rt.stdout().write_all(&bytes[0..written])?;
    if let Some(stop) = ran.stop {
        print!(rt; "{stop}")?;
    }
    Ok(())
}
