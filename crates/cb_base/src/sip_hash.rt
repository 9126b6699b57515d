ghost use Rattle.std.specs.Prelude.{◌≡◌, ◌*◌, ◌/◌, ◌%◌, ◌<◌, ◌++◌, ◌-◌, ◌∷◌, [], drop, length, replicate};
ghost use Rattle.std.specs.Int.{w64, from_le_bytes};
ghost use Rattle.cb_base.specs.SipHash.{last_word, sip_end, sip_round, sip_start, siphash_2_4, with_word};

/// The state of SipHash: four words of 64 bits.
#[derive(Clone, Copy, Drop)]
struct SipState {
    v0: u64,
    v1: u64,
    v2: u64,
    v3: u64,
}

impl SipState {
    /// The initial state under a key.
    fn new(k0: u64, k1: u64) -> SipState
        ensures { result ≡ sip_start k0 k1 }
    {
        SipState {
            v0: k0 ^ 0x736f_6d65_7073_6575,
            v1: k1 ^ 0x646f_7261_6e64_6f6d,
            v2: k0 ^ 0x6c79_6765_6e65_7261,
            v3: k1 ^ 0x7465_6462_7974_6573,
        }
    }

    /// One SipRound.
    fn round(&mut self)
        ensures { self.new ≡ sip_round self.old }
    {
        self.v0 = self.v0.wrapping_add(self.v1);
        self.v1 = self.v1.rotate_left(13) ^ self.v0;
        self.v0 = self.v0.rotate_left(32);
        self.v2 = self.v2.wrapping_add(self.v3);
        self.v3 = self.v3.rotate_left(16) ^ self.v2;
        self.v0 = self.v0.wrapping_add(self.v3);
        self.v3 = self.v3.rotate_left(21) ^ self.v0;
        self.v2 = self.v2.wrapping_add(self.v1);
        self.v1 = self.v1.rotate_left(17) ^ self.v2;
        self.v2 = self.v2.rotate_left(32);
    }

    /// Mixes in one word of the message, with two rounds.
    fn absorb(&mut self, word: u64)
        ensures { self.new ≡ with_word self.old word }
    {
        self.v3 ^= word;
        self.round();
        self.round();
        self.v0 ^= word;
    }

    /// Runs the four last rounds and returns the hash.
    fn finish(mut self) -> u64
        ensures { result ≡ sip_end self }
    {
        self.v2 ^= 0xff;
        self.round();
        self.round();
        self.round();
        self.round();
        self.v0 ^ self.v1 ^ self.v2 ^ self.v3
    }
}

/// The last word of a message as bytes: the bytes after its last whole word, zeros, and at the top
/// the low byte of its length.
fn last_bytes(rest: &[u8], length_byte: u8) -> [u8; 8]
    requires { length rest.now < 8 }
    ensures { result ≡ rest.now ++ replicate (7 - length rest.now) 0 ++ length_byte ∷ [] }
{
    let mut bytes = [0; 8];
    bytes[..rest.len()].copy_from_slice(rest);
    bytes[7] = length_byte;
    bytes
}

/// SipHash-2-4 (Aumasson and Bernstein, 2012) of the bytes, under the key of the two words `k0` and
/// `k1`. It allocates nothing.
pub fn sip24(k0: u64, k1: u64, bytes: &[u8]) -> u64
    ensures { result ≡ siphash_2_4 k0 k1 bytes.now }
{
    let mut state = SipState::new(k0, k1);
    let (words, rest) = bytes.as_chunks::<8>();
    for word in words {
        state.absorb(u64::from_le_bytes(*word));
    }
    let last = last_bytes(rest, (bytes.len() % 256) as u8);
    state.absorb(u64::from_le_bytes(last));
    state.finish()
}
