//! What one channel carries out for the requests of a payload.
ghost use Rattle.std.specs.Prelude.{◌≡◌, ◌∷◌, ◌++◌, ℕ, List, [], is_some, map, IfErr, OnOk};
ghost use Rattle.std.specs.Vec.{vec_items};
ghost use Rattle.sk_commands.specs.Requests.{with_work};
ghost use Rattle.sk_replay.specs.Works.{fault_in, HasCarried, IsRefusedBehind};

use crate::Refusal;
use sk_commands::{Fault, Reply, Session, Work};
use std::alloc::{AllocError, Global};

/// What was carried out for requests, one after another, and the queue that they leave.
#[derive(Drop)]
pub(crate) struct Channel {
    session: Session,
    works: Vec<Work>,
}

/// The fault that is replied, if one is.
fn fault_in(work: &Work) -> Option<Fault>
    ensures { result ≡ fault_in work.now }
{
    match work {
        Work::Say(Reply::Error(fault)) => Some(*fault),
        _ => None,
    }
}

impl Channel {
    /// No request came.
    pub(crate) fn new(alloc: Global) -> Channel
        ensures { HasCarried [] result }
    {
        Channel {
            session: Session::new(alloc),
            works: Vec::new(alloc),
        }
    }

    /// Adds a work that was carried out.
    fn push(&mut self, work: Work) -> Result<(), AllocError>
        ensures works { OnOk result (self.new.works.items ≡ self.old.works.items ++ work ∷ []) }
        ensures session { self.new.session ≡ self.old.session }
    {
        self.works.push(work)?;
        Ok(())
    }

    /// Adds a work, if it is more than a reply.
    fn keep(&mut self, work: Work) -> Result<(), AllocError>
        ensures works { OnOk result
            (self.new.works.items ≡ self.old.works.items ++ with_work work []) }
        ensures session { self.new.session ≡ self.old.session }
    {
        match work {
            Work::Say(_reply) => Ok(()),
            Work::One(command) => self.push(Work::One(command)),
            Work::Each(commands) => self.push(Work::Each(commands)),
        }
    }

    /// A request of these words, which ends behind so many bytes.
    pub(crate) fn take(&mut self, words: Vec<Vec<u8>>, place: usize) -> Result<(), Refusal>
        ensures ok { OnOk result ((requests : List (List (List ℕ))) → HasCarried requests self.old
            → HasCarried (requests ++ map vec_items words.items ∷ []) self.new) }
        ensures err { IfErr result (λ refusal. (requests : List (List (List ℕ)))
            → HasCarried requests self.old
            → IsRefusedBehind requests (map vec_items words.items) place refusal) }
    {
        let work = self.session.take(words)?;
        if let Some(fault) = fault_in(&work) {
            return Err(Refusal::Command(fault, place));
        }
        self.keep(work)?;
        Ok(())
    }

    /// Whether a queue is open.
    pub(crate) fn is_open(&self) -> bool
        ensures { result ≡ is_some self.now.session.queue }
    {
        self.session.is_open()
    }

    /// The works that were carried out.
    pub(crate) fn into_works(self) -> Vec<Work>
        ensures { result ≡ self.works }
    {
        self.works
    }
}
