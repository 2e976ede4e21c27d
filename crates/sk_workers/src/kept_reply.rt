//! Replies as entries keep them: a few words, with what is long in a box.
ghost use Rattle.std.specs.Prelude.{◌≡◌, ◌↔◌, IfOk, OnErr, IsTrue};
ghost use Rattle.sk_workers.specs.Kept.{HasContent};

use sk_objects::Content;
use sk_server::{Answer, Reply};
use std::alloc::{AllocError, Global};
use std::marker::Model;

/// An answer, with its content in a box.
#[derive(Debug, Drop)]
enum BoxedAnswer {
    Yes,
    No(Box<Content>),
    Copy(Box<Content>),
    Dropped,
}

/// A reply that is kept, of which contracts see what they see of a `Reply`.
#[derive(Debug, Drop)]
pub struct KeptReply {
    number: u64,
    answer: BoxedAnswer,
}

impl Model for KeptReply {
    ghost use Rattle.sk_server.specs.declared.reply.Reply.{Reply};
    ghost use Rattle.sk_server.specs.contracts.reply.Reply as reply_row;
    ghost use Rattle.sk_workers.specs.Kept.{answer_of};

    ghost Value = { Reply };

    ghost coded = { reply_row.the_row.coded };

    ghost view = { λ k. record { number = k.number; answer = answer_of k.answer } };
}

impl PartialEq for KeptReply {
    ghost use Rattle.std.specs.Cmp.{partial_equiv_from_equiv};
    ghost use Rattle.sk_server.specs.contracts.reply.ReplyEq.TheImpl.Laws.{laws-law as reply_laws};
    ghost use Rattle.sk_server.specs.contracts.reply.ReplyPartialEq.TheImpl as reply;

    ghost eq = { (reply.ghosts).eq };

    ghost laws = { partial_equiv_from_equiv reply_laws };

    fn eq(&self, other: &KeptReply) -> bool {
        self.reply() == other.reply()
    }
}

impl Eq for KeptReply {
    ghost use Rattle.sk_server.specs.contracts.reply.ReplyEq.TheImpl.Laws.{laws-law as reply_laws};

    ghost laws = { reply_laws };
}

impl KeptReply {
    /// Keeps a reply. It takes memory only for a content.
    pub(crate) fn keep(alloc: Global, reply: &Reply) -> Result<KeptReply, AllocError>
        ensures ok { IfOk result (λ kept. kept ≡ reply.now) }
        ensures err { OnErr result (HasContent reply.now.answer) }
    {
        let answer = match &reply.answer {
            Answer::Yes => BoxedAnswer::Yes,
            Answer::Dropped => BoxedAnswer::Dropped,
            Answer::No(content) => BoxedAnswer::No(Box::new(alloc, *content)?),
            Answer::Copy(content) => BoxedAnswer::Copy(Box::new(alloc, *content)?),
        };
        let number = reply.number;
        Ok(KeptReply { number, answer })
    }

    pub fn reply(&self) -> Reply
        ensures { result ≡ self.now }
    {
        let answer = match &self.answer {
            BoxedAnswer::Yes => Answer::Yes,
            BoxedAnswer::Dropped => Answer::Dropped,
            BoxedAnswer::No(content) => Answer::No(**content),
            BoxedAnswer::Copy(content) => Answer::Copy(**content),
        };
        let number = self.number;
        Reply { number, answer }
    }

    /// Whether both are the same.
    pub fn is_same(&self, other: &KeptReply) -> bool
        ensures { IsTrue result ↔ (self.now ≡ other.now) }
    {
        if self.number != other.number {
            return false;
        }
        match (&self.answer, &other.answer) {
            (BoxedAnswer::Yes, BoxedAnswer::Yes) | (BoxedAnswer::Dropped, BoxedAnswer::Dropped) =>
                true,
            (BoxedAnswer::No(content), BoxedAnswer::No(other)) => is_same_content(content, other),
            (BoxedAnswer::Copy(content), BoxedAnswer::Copy(other)) => is_same_content(
                content, other,
            ),
            _ => false,
        }
    }
}

/// Whether both contents are the same.
fn is_same_content(content: &Content, other: &Content) -> bool
    ensures { IsTrue result ↔ (content.now ≡ other.now) }
{
    if content.version() != other.version() {
        return false;
    }
    content.bytes() == other.bytes()
}
