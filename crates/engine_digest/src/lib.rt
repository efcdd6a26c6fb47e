// The digest of all octets of METADATA, as two numbers.
#![tactic(auto)]

ghost use Rattle.std.specs.Prelude.{◌≡◌};
ghost use Rattle.engine_model.specs.Meetings.{digest_of};

use engine_slots::Digest;

// MD5 of the packet in one part. The state and the buffer have the octets that MD5 asks, so it refuses nothing.
pub fn digest_of(packet: &[u8]) -> Digest
    ensures { result ≡ digest_of packet.now }
{
    let mut state = [0u8; 88];
    let _ = md5_feed::begin(&mut state);
    let _ = md5_feed::add(&mut state, packet);
    let mut out = [0u8; 16];
    let _ = md5_digest::end(&state, &mut out);
    Digest {
        first: octets_stored::read_low_eight(&out, 0),
        second: octets_stored::read_low_eight(&out, 8),
    }
}
