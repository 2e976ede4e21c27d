//! The blanking of what stands behind the frames that were read.
ghost use Rattle.std.specs.Prelude.{◌≡◌, ◌≤◌, ℕ, List, length, slice_index, take};
ghost use Rattle.sk_log.specs.Log.{log, IsLog};

/// Writes zeros over all bytes from a place on: over what a crash left behind the frames of a segment, before anything is
/// written there. They are to be synced before that.
pub fn blank(bytes: &mut [u8], place: usize)
    requires { place ≤ length bytes.old }
    ensures kept { take place bytes.new ≡ take place bytes.old }
    ensures zeros { (i : ℕ) → place ≤ i → slice_index bytes.new i ≡ 0 }
    ensures read { (segment number : ℕ) (payloads : List (List ℕ))
        → IsLog segment number payloads bytes.old → place ≡ length (log segment number payloads)
        → IsLog segment number payloads bytes.new }
    ensures ready { (segment number : ℕ) (payloads : List (List ℕ))
        → IsLog segment number payloads bytes.old → place ≡ length (log segment number payloads)
        → (i : ℕ) → slice_index bytes.new i ≡ slice_index (log segment number payloads) i }
{
    write_zeros(bytes, place);
}

fn write_zeros(bytes: &mut [u8], place: usize)
    requires { place ≤ length bytes.old }
    ensures kept { take place bytes.new ≡ take place bytes.old }
    ensures zeros { (i : ℕ) → place ≤ i → slice_index bytes.new i ≡ 0 }
{
    bytes[place..].fill(0);
}
