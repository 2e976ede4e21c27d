//! What a refusal takes back.

/// The checkpoint that all goes back to, and the names that are undone, by rising number: what is known of them is what was
/// known at the checkpoint, or what the server told since.
#[derive(Drop)]
pub struct Back {
    pub checkpoint: u64,
    pub names: Vec<u64>,
}
