//! The bytes of a frame's head.
ghost use Rattle.std.specs.Prelude.{◌≡◌, ◌<◌, ◌^◌, ◌↔◌, ◌∷◌, ◌++◌, ℕ, [], IsTrue, length, sum};
ghost use Rattle.sk_log.specs.Frame.{front, head_of};

/// How long a frame's head is.
pub const HEAD: usize = 24;

/// What the sum of a head's first 22 bytes is taken from.
const CHECK: u64 = 22 * 256;

/// The sum of the bytes.
pub(crate) fn sum_of(bytes: &[u8]) -> u64
    requires { length bytes.now < 2 ^ 28 }
    ensures value { result ≡ sum bytes.now }
    ensures small { result < 2 ^ 36 }
{
    let mut total = 0;
    for byte in bytes {
        total += *byte as u64;
    }
    total
}

/// What a head says, and two zeros.
fn unchecked(segment: u64, number: u64, len: usize, total: u64) -> [u8; 24]
    ensures { result ≡ front segment number len total ++ 0 ∷ 0 ∷ [] }
{
    [
        128 + (segment % 128) as u8,
        128 + (segment / 128 % 128) as u8,
        128 + (segment / 128 / 128 % 128) as u8,
        128 + (segment / 128 / 128 / 128 % 128) as u8,
        128 + (number % 128) as u8,
        128 + (number / 128 % 128) as u8,
        128 + (number / 128 / 128 % 128) as u8,
        128 + (number / 128 / 128 / 128 % 128) as u8,
        128 + (number / 128 / 128 / 128 / 128 % 128) as u8,
        128 + (number / 128 / 128 / 128 / 128 / 128 % 128) as u8,
        128 + (number / 128 / 128 / 128 / 128 / 128 / 128 % 128) as u8,
        128 + (number / 128 / 128 / 128 / 128 / 128 / 128 / 128 % 128) as u8,
        128 + (len % 128) as u8,
        128 + (len / 128 % 128) as u8,
        128 + (len / 128 / 128 % 128) as u8,
        128 + (len / 128 / 128 / 128 % 128) as u8,
        128 + (total % 128) as u8,
        128 + (total / 128 % 128) as u8,
        128 + (total / 128 / 128 % 128) as u8,
        128 + (total / 128 / 128 / 128 % 128) as u8,
        128 + (total / 128 / 128 / 128 / 128 % 128) as u8,
        128 + (total / 128 / 128 / 128 / 128 / 128 % 128) as u8,
        0,
        0,
    ]
}

/// The head that says these.
pub(crate) fn head_bytes(segment: u64, number: u64, len: usize, total: u64) -> [u8; 24]
    ensures { result ≡ head_of segment number len total }
{
    let mut head = unchecked(segment, number, len, total);
    let check = CHECK.saturating_sub(sum_of(&head));
    head[22] = 128 + (check % 128) as u8;
    head[23] = 128 + (check / 128 % 128) as u8;
    head
}

/// The number of the frame, as a head says it.
pub(crate) fn said_number(head: &[u8]) -> u64
    requires { length head.now ≡ 24 }
    ensures small { result < 2 ^ 56 }
    ensures said { (segment number len total : ℕ) → number < 2 ^ 56
        → head.now ≡ head_of segment number len total → result ≡ number }
{
    let low = (head[4] % 128) as u64
        + 128
            * ((head[5] % 128) as u64
                + 128 * ((head[6] % 128) as u64 + 128 * (head[7] % 128) as u64));
    let high = (head[8] % 128) as u64
        + 128
            * ((head[9] % 128) as u64
                + 128 * ((head[10] % 128) as u64 + 128 * (head[11] % 128) as u64));
    low + 128 * 128 * 128 * 128 * high
}

/// How long the payload is, as a head says it.
pub(crate) fn said_len(head: &[u8]) -> usize
    requires { length head.now ≡ 24 }
    ensures small { result < 2 ^ 28 }
    ensures said { (segment number len total : ℕ) → len < 2 ^ 28
        → head.now ≡ head_of segment number len total → result ≡ len }
{
    (head[12] % 128) as usize
        + 128
            * ((head[13] % 128) as usize
                + 128 * ((head[14] % 128) as usize + 128 * (head[15] % 128) as usize))
}

/// The sum of the payload's bytes, as a head says it.
pub(crate) fn said_total(head: &[u8]) -> u64
    requires { length head.now ≡ 24 }
    ensures small { result < 2 ^ 42 }
    ensures said { (segment number len total : ℕ) → total < 2 ^ 42
        → head.now ≡ head_of segment number len total → result ≡ total }
{
    let low = (head[16] % 128) as u64
        + 128 * ((head[17] % 128) as u64 + 128 * (head[18] % 128) as u64);
    let high = (head[19] % 128) as u64
        + 128 * ((head[20] % 128) as u64 + 128 * (head[21] % 128) as u64);
    low + 128 * 128 * 128 * high
}

/// Whether the bytes are the same.
pub(crate) fn are_same(a: &[u8], b: &[u8]) -> bool
    ensures { IsTrue result ↔ (a.now ≡ b.now) }
{
    a == b
}
