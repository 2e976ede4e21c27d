//! Outputs that were taken out of their channels and not handed over.
ghost use Rattle.std.specs.Prelude.{◌≡◌, ◌==◌, not};
ghost use Rattle.std.specs.List.{prefix_len};
ghost use Rattle.std.specs.Option.{option_map};
ghost use Rattle.sk_held.specs.Outputs.{but_first, first_of};

/// An output, and the channel that it was taken out of.
#[derive(Drop)]
pub struct Output {
    pub channel: u16,
    pub bytes: Vec<u8>,
}

/// How many outputs stand before the first of a channel; all, where it has none.
fn place_of(outputs: &[Output], channel: u16) -> usize
    ensures { result ≡ prefix_len (λ o. not (o.channel == channel)) outputs.now }
{
    for place in 0..outputs.len() {
        if outputs[place].channel == channel {
            return place;
        }
    }
    outputs.len()
}

/// The bytes of the first of a channel.
pub(crate) fn first_of(outputs: &[Output], channel: u16) -> Option<&[u8]>
    ensures { option_map (λ s. s.now) result ≡ first_of channel outputs.now }
{
    match outputs.get(place_of(outputs, channel)) {
        Some(output) => Some(output.bytes.as_slice()),
        None => None,
    }
}

/// Lets go of the first of a channel.
pub(crate) fn drop_first(outputs: &mut Vec<Output>, channel: u16)
    ensures { outputs.new.items ≡ but_first channel outputs.old.items }
{
    let place = place_of(outputs.as_slice(), channel);
    if place < outputs.len() {
        outputs.remove(place);
    }
}
