//! What C sees of a script: one function, in an archive.
#![tactic(auto)]

ghost use Rattle.std.specs.Prelude.{◌≡◌};
ghost use Rattle.script.specs.Run.{whole, packed};

use script::export;

/// Plays a script into a listing. The low 32 bits of the answer say how many bytes of the listing are written,
/// and the high 32 bits are the number of the fault that stopped the run, or 0.
#[unsafe(no_mangle)]
pub extern "C" fn run(script: &[u8], listing: &mut [u8]) -> u64
    ensures value { result ≡ packed (whole script.now listing.old) }
    ensures listing { listing.new ≡ (whole script.now listing.old).listing }
{
    export::run(script, listing)
}
