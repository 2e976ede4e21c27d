//! What happens under epochs.

/// What happens. Names, versions, streams and outputs are numbers of the host; names from 1 on.
#[derive(Clone, Copy, Debug, PartialEq, Eq)]
pub enum Event {
    /// The processes change what is known of a name, to a version or to none.
    Changes { name: u64, version: Option<u64> },
    /// The server tells it, whatever the processes do.
    Told { name: u64, version: Option<u64> },
    /// A chunk of output is said on a stream.
    Says { stream: u16, output: u64 },
}
