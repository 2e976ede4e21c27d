//! Numbers as bytes: eight of each, the lowest first.
ghost use Rattle.std.specs.Prelude.{◌≡◌, ◌≤◌, ◌+◌, ◌*◌, ◌++◌, length, OnOk};
ghost use Rattle.std.specs.Int.{w64, from_le_bytes, to_le_bytes};
ghost use Rattle.sk_messages.specs.Numbers.{number_at, number_bytes};

use sk_ids::GuessId;
use std::alloc::AllocError;

/// How many bytes a number has.
pub const NUMBER: usize = 8;

/// Appends a number.
fn write_number(number: u64, out: &mut Vec<u8>) -> Result<(), AllocError>
    ensures { OnOk result (out.new.items ≡ out.old.items ++ to_le_bytes w64 number) }
{
    out.extend_from_slice(&number.to_le_bytes())
}

/// Appends these numbers.
#[tactic(auto, unfolding(crate::specs::Numbers::number_bytes))]
pub(crate) fn write_numbers(numbers: &[u64], out: &mut Vec<u8>) -> Result<(), AllocError>
    ensures { OnOk result (out.new.items ≡ out.old.items ++ number_bytes numbers.now) }
{
    for number in numbers {
        write_number(*number, out)?;
    }
    Ok(())
}

/// Appends the numbers of these guesses.
#[tactic(auto, unfolding(crate::specs::Numbers::number_bytes))]
pub(crate) fn write_guesses(guesses: &[GuessId], out: &mut Vec<u8>) -> Result<(), AllocError>
    ensures { OnOk result (out.new.items ≡ out.old.items ++ number_bytes guesses.now) }
{
    for guess in guesses {
        write_number(guess.number(), out)?;
    }
    Ok(())
}

/// The number that eight bytes are.
fn number_of(bytes: &[u8]) -> u64
    requires { length bytes.now ≡ 8 }
    ensures { result ≡ from_le_bytes w64 bytes.now }
{
    let mut number = [0; NUMBER];
    number.copy_from_slice(bytes);
    u64::from_le_bytes(number)
}

/// The number at a place, from 0 on, among numbers of 8 bytes each.
#[tactic(auto, unfolding(crate::specs::Numbers::number_at))]
pub(crate) fn number_at(bytes: &[u8], place: usize) -> u64
    requires { 8 * place + 8 ≤ length bytes.now }
    ensures { result ≡ number_at place bytes.now }
{
    let from = NUMBER * place;
    number_of(&bytes[from..from + NUMBER])
}
