//! How many outputs each channel has, by the channel's number.
ghost use Rattle.std.specs.Prelude.{◌≡◌, ◌+◌, ◌<◌, ◌^◌, ◌==◌, cond, get_or, ℕ, OnOk};
ghost use Rattle.std.specs.Vec.{vec_len};

use std::alloc::AllocError;

/// The count of a channel; none is kept of one that never had an output.
pub(crate) fn count_of(counts: &[usize], to: u16) -> usize
    ensures { result ≡ get_or counts.now to 0 }
{
    match counts.get(usize::from(to)) {
        Some(count) => *count,
        None => 0,
    }
}

/// Makes room to count the outputs of a channel.
pub(crate) fn reserve_count(counts: &mut Vec<usize>, to: u16) -> Result<(), AllocError>
    ensures same { (t : ℕ) → get_or counts.new.items t 0 ≡ get_or counts.old.items t 0 }
    ensures ok { OnOk result (to < vec_len counts.new) }
{
    let wanted = usize::from(to) + 1;
    if counts.len() < wanted {
        counts.resize(wanted, 0)?;
    }
    Ok(())
}

/// Counts one output more of a channel, for which there is room.
pub(crate) fn count_up(counts: &mut Vec<usize>, to: u16)
    requires room { to < vec_len counts.old }
    requires more { get_or counts.old.items to 0 + 1 < 2 ^ 64 }
    ensures { (t : ℕ) → get_or counts.new.items t 0
        ≡ cond (to == t) (get_or counts.old.items t 0 + 1) (get_or counts.old.items t 0) }
{
    counts[usize::from(to)] += 1;
}

/// Counts one output less of a channel that has some.
pub(crate) fn count_down(counts: &mut Vec<usize>, to: u16)
    requires { 0 < get_or counts.old.items to 0 }
    ensures { (t : ℕ) → get_or counts.old.items t 0
        ≡ cond (to == t) (get_or counts.new.items t 0 + 1) (get_or counts.new.items t 0) }
{
    counts[usize::from(to)] -= 1;
}
