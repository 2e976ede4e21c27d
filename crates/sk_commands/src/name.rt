//! The names of commands.
ghost use Rattle.std.specs.Prelude.{◌≡◌, ◌++◌, codes, find};
ghost use Rattle.sk_commands.specs.Names.{is_alike, may_write_by, name_of, text_of};

/// What a command is called.
#[derive(Clone, Copy, Debug, PartialEq, Eq)]
pub enum Name {
    Get,
    Set,
    Del,
    Exists,
    Incr,
    Decr,
    IncrBy,
    DecrBy,
    Append,
    StrLen,
    GetSet,
    MGet,
    MSet,
    DbSize,
    Keys,
    FlushAll,
    Multi,
    Exec,
    Discard,
    Ping,
    Echo,
}

/// The names of all commands.
const NAMES: [Name; 21] = [
    Name::Get,
    Name::Set,
    Name::Del,
    Name::Exists,
    Name::Incr,
    Name::Decr,
    Name::IncrBy,
    Name::DecrBy,
    Name::Append,
    Name::StrLen,
    Name::GetSet,
    Name::MGet,
    Name::MSet,
    Name::DbSize,
    Name::Keys,
    Name::FlushAll,
    Name::Multi,
    Name::Exec,
    Name::Discard,
    Name::Ping,
    Name::Echo,
];

/// Whether two words differ in the size of their letters alone.
pub(crate) fn is_alike(left: &[u8], right: &[u8]) -> bool
    ensures { result ≡ is_alike left.now right.now }
{
    left.eq_ignore_ascii_case(right)
}

/// The first of these names that a word says, in letters of any size.
fn first_alike(names: &[Name], word: &[u8]) -> Option<Name>
    ensures { result ≡ find (λ name. is_alike word.now (text_of name)) names.now }
{
    for name in names {
        if is_alike(word, name.text()) {
            return Some(*name);
        }
    }
    None
}

impl Name {
    /// The name, in small letters.
    pub fn text(self) -> &'static [u8]
        ensures { result.now ≡ text_of self }
    {
        match self {
            Name::Get => b"get",
            Name::Set => b"set",
            Name::Del => b"del",
            Name::Exists => b"exists",
            Name::Incr => b"incr",
            Name::Decr => b"decr",
            Name::IncrBy => b"incrby",
            Name::DecrBy => b"decrby",
            Name::Append => b"append",
            Name::StrLen => b"strlen",
            Name::GetSet => b"getset",
            Name::MGet => b"mget",
            Name::MSet => b"mset",
            Name::DbSize => b"dbsize",
            Name::Keys => b"keys",
            Name::FlushAll => b"flushall",
            Name::Multi => b"multi",
            Name::Exec => b"exec",
            Name::Discard => b"discard",
            Name::Ping => b"ping",
            Name::Echo => b"echo",
        }
    }

    /// What is said where a command of this name has too few words, or too many.
    pub(crate) fn wrong_number(self) -> &'static [u8]
        ensures { result.now
            ≡ codes "ERR wrong number of arguments for '" ++ text_of self ++ codes "' command" }
    {
        match self {
            Name::Get => b"ERR wrong number of arguments for 'get' command",
            Name::Set => b"ERR wrong number of arguments for 'set' command",
            Name::Del => b"ERR wrong number of arguments for 'del' command",
            Name::Exists => b"ERR wrong number of arguments for 'exists' command",
            Name::Incr => b"ERR wrong number of arguments for 'incr' command",
            Name::Decr => b"ERR wrong number of arguments for 'decr' command",
            Name::IncrBy => b"ERR wrong number of arguments for 'incrby' command",
            Name::DecrBy => b"ERR wrong number of arguments for 'decrby' command",
            Name::Append => b"ERR wrong number of arguments for 'append' command",
            Name::StrLen => b"ERR wrong number of arguments for 'strlen' command",
            Name::GetSet => b"ERR wrong number of arguments for 'getset' command",
            Name::MGet => b"ERR wrong number of arguments for 'mget' command",
            Name::MSet => b"ERR wrong number of arguments for 'mset' command",
            Name::DbSize => b"ERR wrong number of arguments for 'dbsize' command",
            Name::Keys => b"ERR wrong number of arguments for 'keys' command",
            Name::FlushAll => b"ERR wrong number of arguments for 'flushall' command",
            Name::Multi => b"ERR wrong number of arguments for 'multi' command",
            Name::Exec => b"ERR wrong number of arguments for 'exec' command",
            Name::Discard => b"ERR wrong number of arguments for 'discard' command",
            Name::Ping => b"ERR wrong number of arguments for 'ping' command",
            Name::Echo => b"ERR wrong number of arguments for 'echo' command",
        }
    }

    /// The name that a word says, in letters of any size.
    #[tactic(auto, unfolding(crate::specs::Names::name_of))]
    pub fn of(word: &[u8]) -> Option<Name>
        ensures { result ≡ name_of word.now }
    {
        first_alike(&NAMES, word)
    }

    /// Whether a request of this name may write: as a command, or by carrying out a queue. Where not, it writes nothing, whatever
    /// its words are.
    pub fn may_write(self) -> bool
        ensures { result ≡ may_write_by self }
    {
        !matches!(
            self,
            Name::Get
                | Name::Exists
                | Name::StrLen
                | Name::MGet
                | Name::DbSize
                | Name::Keys
                | Name::Multi
                | Name::Discard
                | Name::Ping
                | Name::Echo
        )
    }
}
