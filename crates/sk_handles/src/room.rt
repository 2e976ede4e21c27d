//! Texts in a caller's room.
ghost use Rattle.std.specs.Prelude.{◌≡◌};
ghost use Rattle.sk_handles.specs.Told.{put};

/// Writes the first bytes of a text over those of a room, as far as both reach.
pub fn put(text: &[u8], room: &mut [u8])
    ensures { room.new ≡ put text.now room.old }
{
    let count = text.len().min(room.len());
    room[..count].copy_from_slice(&text[..count]);
}
