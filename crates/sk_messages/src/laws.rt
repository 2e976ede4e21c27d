//! Laws of requests and replies as bytes. Each is the contract of a function that does nothing.
ghost use Rattle.std.specs.Prelude.{◌≡◌, Some};
ghost use Rattle.sk_server.specs.declared.reply.Reply.{Reply};
ghost use Rattle.sk_messages.specs.Replies.{reply_bytes, reply_of, IsReply};

/// Each reply is read from its bytes.
pub fn replies_are_read()
    ensures { (r : Reply) → IsReply r → reply_of (reply_bytes r) ≡ Some r }
{}
