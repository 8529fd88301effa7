// Where a byte first stands.
ghost use Rattle.std.specs.Prelude.{◌≡◌, ℕ, ◌<◌, ◌≤◌, length, ◌≢◌, slice_index};

// How many bytes there are before the first of this kind.
pub(crate) fn len_before(bytes: &[u8], stop: u8) -> usize
    ensures within { result ≤ length bytes.now }
    ensures before { (k : ℕ) → k < result → slice_index bytes.now k ≢ stop }
    ensures found { result < length bytes.now → slice_index bytes.now result ≡ stop }
{
    bytes.iter().take_while(|byte| **byte != stop).count()
}
