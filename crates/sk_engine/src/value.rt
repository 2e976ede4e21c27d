//! The bytes of a batch tell whose they are: they begin with the leadership that sends them.
ghost use Rattle.std.specs.Prelude.{◌≡◌, ◌<◌, ◌≤◌, ◌↔◌, length, drop, IsNone, IfSome};
ghost use Rattle.sk_engine.specs.Moves.{owner_of};

/// How many bytes a leadership takes.
pub const OWNER_LEN: usize = 8;

/// Writes a leadership into the front of the bytes of a batch; the rest stays.
pub fn sign(value: &mut [u8], leadership: u64)
    requires { 8 ≤ length value.old }
    ensures own { owner_of value.new ≡ leadership }
    ensures rest { drop 8 value.new ≡ drop 8 value.old }
{
    value[..OWNER_LEN].copy_from_slice(&leadership.to_be_bytes());
}

/// The leadership that the bytes of a batch begin with, unless they are too few.
pub fn owner(value: &[u8]) -> Option<u64>
    ensures short { IsNone result ↔ (length value.now < 8) }
    ensures own { IfSome result (λ leadership. leadership ≡ owner_of value.now) }
{
    if value.len() < OWNER_LEN {
        return None;
    }
    let front = [
        value[0], value[1], value[2], value[3], value[4], value[5], value[6], value[7],
    ];
    Some(u64::from_be_bytes(front))
}
