//! Replies as bytes.
ghost use Rattle.std.specs.Prelude.{◌≡◌, ◌++◌, flat_map, length, option_copied, IfOk, OnOk};
ghost use Rattle.sk_requests.specs.Replies.{array_text};
ghost use Rattle.sk_commands.specs.Texts.{answer_text, reply_text, value_text};

use crate::{Answer, ByteString, Reply};
use sk_requests::reply::{array, bulk, error, integer, null, simple};
use std::alloc::{AllocError, Global};

/// Writes what a key has.
fn write_value(text: &mut Vec<u8>, value: Option<&ByteString>) -> Result<(), AllocError>
    ensures { OnOk result (text.new.items ≡ text.old.items ++ value_text (option_copied value.entry)) }
{
    match value {
        Some(value) => bulk(text, value.as_slice()),
        None => null(text),
    }
}

/// Writes what keys have.
fn write_values(text: &mut Vec<u8>, values: &[Option<ByteString>]) -> Result<(), AllocError>
    ensures { OnOk result (text.new.items ≡ text.old.items
        ++ (array_text (length values.now) ++ flat_map value_text values.now)) }
{
    array(text, values.len())?;
    for value in values {
        write_value(text, value.as_ref())?;
    }
    Ok(())
}

fn write_reply(text: &mut Vec<u8>, reply: &Reply) -> Result<(), AllocError>
    ensures { OnOk result (text.new.items ≡ text.old.items ++ reply_text reply.now) }
{
    match reply {
        Reply::Simple(word) => simple(text, word.text()),
        Reply::Error(fault) => error(text, fault.words()),
        Reply::Rejected(words) => error(text, words.as_slice()),
        Reply::Text(bytes) => text.extend_from_slice(bytes.as_slice()),
        Reply::Integer(number) => integer(text, *number),
        Reply::Bulk(bytes) => bulk(text, bytes.as_slice()),
        Reply::Null => null(text),
        Reply::Array(values) => write_values(text, values.as_slice()),
    }
}

/// Writes an array of replies.
fn write_replies(text: &mut Vec<u8>, replies: &[Reply]) -> Result<(), AllocError>
    ensures { OnOk result (text.new.items ≡ text.old.items
        ++ (array_text (length replies.now) ++ flat_map reply_text replies.now)) }
{
    array(text, replies.len())?;
    for reply in replies {
        write_reply(text, reply)?;
    }
    Ok(())
}

impl Answer {
    /// The bytes of the reply.
    pub fn text(&self, alloc: Global) -> Result<Vec<u8>, AllocError>
        ensures { IfOk result (λ text. text.items ≡ answer_text self.now) }
    {
        let mut text = Vec::new(alloc);
        match self {
            Answer::One(reply) => write_reply(&mut text, reply)?,
            Answer::Each(replies) => write_replies(&mut text, replies.as_slice())?,
        }
        Ok(text)
    }
}
