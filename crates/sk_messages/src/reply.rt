//! Replies that came as bytes.
ghost use Rattle.std.specs.Prelude.{◌≡◌};
ghost use Rattle.sk_messages.specs.Replies.{answer_of, bare, content_of, reply_from, reply_of};

use crate::numbers::number_at;
use sk_ids::Text;
use sk_objects::Content;
use sk_server::{Answer, Reply};

/// How many bytes stand before those of the content.
pub const HEAD: usize = 32;

/// The content of this version and these bytes, if there can be one.
fn content_of(version: u64, bytes: &[u8]) -> Option<Content>
    ensures { result ≡ content_of version bytes.now }
{
    let text = Text::new(bytes)?;
    Content::new(version, text)
}

/// An answer that sends no content.
fn bare(answer: Answer, version: u64, bytes: &[u8]) -> Option<Answer>
    ensures { result ≡ bare answer version bytes.now }
{
    if !bytes.is_empty() {
        return None;
    }
    if version != 0 {
        return None;
    }
    Some(answer)
}

fn answer_of(kind: u64, version: u64, bytes: &[u8]) -> Option<Answer>
    ensures { result ≡ answer_of kind version bytes.now }
{
    match kind {
        1 => bare(Answer::Yes, version, bytes),
        2 => Some(Answer::No(content_of(version, bytes)?)),
        3 => Some(Answer::Copy(content_of(version, bytes)?)),
        4 => bare(Answer::Dropped, version, bytes),
        _ => None,
    }
}

/// The reply of these parts, behind which so many bytes of content stand.
fn reply_from(number: u64, kind: u64, version: u64, count: u64, content: &[u8]) -> Option<Reply>
    ensures { result ≡ reply_from number kind version count content.now }
{
    if count != content.len() as u64 {
        return None;
    }
    let answer = answer_of(kind, version, content)?;
    Some(Reply { number, answer })
}

/// The reply of just these bytes; `None` where they are none.
pub fn read_reply(bytes: &[u8]) -> Option<Reply>
    ensures { result ≡ reply_of bytes.now }
{
    if bytes.len() < HEAD {
        return None;
    }
    let number = number_at(bytes, 0);
    let kind = number_at(bytes, 1);
    let version = number_at(bytes, 2);
    reply_from(number, kind, version, number_at(bytes, 3), &bytes[HEAD..])
}
