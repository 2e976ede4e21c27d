//! Whole values beside changes.

/// What is written of a key: its value, which is absent after `None`, or a change of the value that it has.
#[derive(Drop)]
pub enum Write<V, C> {
    Set(Option<V>),
    Change(C),
}

impl<V, C> Default for Write<V, C> {
    fn default() -> Write<V, C> {
        Write::Set(None)
    }
}
