ghost use Rattle.std.specs.Prelude.{◌≡◌, ◌≤◌};
ghost use Rattle.script.specs.Run.{whole, stop_number, packed};

use crate::run::play;
use format::fault::Stop;

/// The number of the fault that a run stopped at, or 0.
fn stop_number(stop: Option<Stop>) -> u64
    ensures value { result ≡ stop_number stop }
    ensures most { result ≤ 20 }
{
    stop.map_or(0, |stop| u8::from(stop.fault).into())
}

/// Plays a script into a listing, for C. The low 32 bits of the answer say how many bytes of the listing are written,
/// and the high 32 bits are the number of the fault that stopped the run, or 0.
pub fn run(script: &[u8], listing: &mut [u8]) -> u64
    ensures value { result ≡ packed (whole script.now listing.old) }
    ensures listing { listing.new ≡ (whole script.now listing.old).listing }
{
    let ran = play(script, listing);
    ran.written as u64 + 0x1_0000_0000 * stop_number(ran.stop)
}
