//! A kernel with its tokens, and the record that it is held against.
use crate::job::{CHANNELS, Deed, Job, KEYS, NOTHING, bit_of};
use crate::kernel::{
    Counts, Numbers, Told, commit, counted, dependents, fail, has_keys, names_one_of,
};
use crate::own::Own;
use crate::record::{Reckoning, Record};
use crate::step::{fill, is_step};
use crate::wrong::{Wrong, holds};
use sk_guesses::Status;
use sk_ids::GuessId;
use sk_speculator::{Committed, Refusal};
use std::alloc::{AllocError, Global};
use std::process::Abort;

/// A kernel, the record of its steps, and of each channel how many outputs were taken out.
pub struct Session {
    own: Own,
    record: Record,
    taken_out: [usize; CHANNELS as usize],
    drawn: u64,
    /// Whether a growth may be refused.
    may_lack: bool,
}

impl Session {
    /// Nothing has happened in the kernel, to which a growth may be refused or not.
    pub fn new(alloc: Global, kernel: Numbers, may_lack: bool) -> Session {
        Session {
            own: Own::new(alloc, kernel),
            record: Record::new(alloc),
            taken_out: [0; CHANNELS as usize],
            drawn: 0,
            may_lack,
        }
    }

    fn value(&self, key: Option<u32>) -> Option<u64> {
        match key {
            Some(key) => self.own.kernel.value(&key).copied(),
            None => None,
        }
    }

    /// What a job does on the values that are there.
    fn deed(&self, job: &Job) -> Deed {
        job.deed(self.value(job.actor), self.value(job.looks))
    }

    /// The step's buffers have a deed.
    fn is_handed_back(&self, deed: &Deed) -> Result<(), Wrong> {
        holds(is_step(&self.own.step, deed), Wrong::Buffers)
    }

    /// Makes ready what a call with this deed wants beside the kernel.
    fn prepare(&mut self, deed: &Deed) -> Result<(), AllocError> {
        if fill(&mut self.own.step, deed).is_err() {
            fill(&mut self.own.step, deed)?;
        }
        if self.record.reserve().is_err() {
            self.record.reserve()?;
        }
        if self.own.tokens.reserve(1).is_err() {
            self.own.tokens.reserve(1)?;
        }
        Ok(())
    }

    /// Memory may be refused, and all is as it was.
    fn lacks(&self, deed: &Deed) -> Result<(), Wrong> {
        holds(self.may_lack, Wrong::Refused)?;
        self.is_handed_back(deed)?;
        self.judge()
    }

    /// Hands in the step; once more, where memory was refused and all is as it was.
    fn hand_in(&mut self, deed: &Deed) -> Result<(), Wrong> {
        if self.own.kernel.take(&mut self.own.step).is_ok() {
            return Ok(());
        }
        self.lacks(deed)?;
        holds(
            self.own.kernel.take(&mut self.own.step).is_ok(),
            Wrong::Memory,
        )
    }

    /// Takes a step.
    pub fn take(&mut self, job: &Job) -> Result<(), Wrong> {
        let deed = self.deed(job);
        self.prepare(&deed)?;
        self.hand_in(&deed)?;
        self.took(job, None)
    }

    /// The step of a job was taken: its buffers are empty.
    fn took(&mut self, job: &Job, guess: Option<GuessId>) -> Result<(), Wrong> {
        self.is_handed_back(&NOTHING)?;
        self.record.take(job, guess)?;
        Ok(())
    }

    /// As many guesses are undecided as may be.
    fn is_full(&self) -> bool {
        self.record.undecided().len() >= usize::from(self.own.kernel.limit())
    }

    /// Draws a guess with its step, unless as many are undecided as may be; once more, where memory was refused and all is as
    /// it was.
    pub fn guess(&mut self, job: &Job) -> Result<(), Wrong> {
        let deed = self.deed(job);
        self.prepare(&deed)?;
        let first = self.own.draw();
        if first != Err(Refusal::Memory) {
            return self.answered(job, &deed, first);
        }
        holds(!self.is_full(), Wrong::Memory)?;
        self.lacks(&deed)?;
        let second = self.own.draw();
        self.answered(job, &deed, second)
    }

    /// A guess was drawn with the step of a job, or not where as many are undecided as may be.
    fn answered(
        &mut self,
        job: &Job,
        deed: &Deed,
        answer: Result<GuessId, Refusal>,
    ) -> Result<(), Wrong> {
        let is_full = self.is_full();
        match answer {
            Ok(id) => {
                holds(!is_full, Wrong::Refused)?;
                self.drew(job, id)
            }
            Err(refusal) => {
                holds(is_full && refusal == Refusal::TooMany, Wrong::Refused)?;
                self.is_handed_back(deed)
            }
        }
    }

    /// A guess was drawn with the step of a job.
    fn drew(&mut self, job: &Job, id: GuessId) -> Result<(), Wrong> {
        self.drawn = self.drawn.saturating_add(1);
        holds(id.number() == self.drawn, Wrong::Status)?;
        self.took(job, Some(id))
    }

    /// Decides the token at a place, if one is there.
    pub fn decide(&mut self, rt: &impl Abort, place: usize, fails: bool) -> Result<(), Wrong> {
        if place >= self.own.tokens.len() {
            return Ok(());
        }
        let token = self.own.tokens.remove(place);
        let id = token.id();
        if fails {
            let told = fail(rt, &mut self.own.kernel, token);
            self.failed(id, told)
        } else {
            let committed = commit(rt, &mut self.own.kernel, token);
            self.committed(id, committed)
        }
    }

    fn committed(&mut self, id: GuessId, committed: Committed) -> Result<(), Wrong> {
        let is_open = self.record.place(id).is_some();
        holds(is_open == (committed == Committed::Done), Wrong::Status)?;
        self.record.commit(id);
        Ok(())
    }

    fn failed(&mut self, id: GuessId, told: Option<Told>) -> Result<(), Wrong> {
        match (self.record.place(id), told) {
            (Some(place), Some(told)) => self.took_back(id, place, told),
            (None, None) => Ok(()),
            _ => Err(Wrong::Status),
        }
    }

    /// What the failure of the guess at a place tells is what the record loses.
    fn took_back(&mut self, id: GuessId, place: usize, told: Told) -> Result<(), Wrong> {
        let before = self.record.undecided().len();
        let reckoning = self.reckon()?;
        if self.record.fail(id, &reckoning).is_err() {
            self.record.fail(id, &reckoning)?;
        }
        let left = self.record.undecided().len();
        let lost = Told {
            keys: Some(reckoning.dependents(place)),
            struck: before.saturating_sub(left).saturating_sub(1),
        };
        holds(told == lost, Wrong::Undone)
    }

    /// Takes the next output of a channel, which is the record's.
    pub fn release(&mut self, channel: u16) -> Result<(), Wrong> {
        let due = self.due(&self.reckon()?, channel);
        holds(self.own.kernel.released(channel) == due, Wrong::Output)?;
        if due.is_some() {
            self.count_out(channel);
        }
        Ok(())
    }

    /// An output of a channel was taken out.
    fn count_out(&mut self, channel: u16) {
        if let Some(count) = self.taken_out.get_mut(channel as usize) {
            *count = count.saturating_add(1);
        }
    }

    /// The output of a channel that is to be taken out next.
    fn due(&self, reckoning: &Reckoning, channel: u16) -> Option<u64> {
        match self.taken_out.get(channel as usize) {
            Some(count) => reckoning.released(channel, *count),
            None => None,
        }
    }

    /// What the record comes to.
    fn reckon(&self) -> Result<Reckoning, AllocError> {
        match self.record.reckon() {
            Ok(reckoning) => Ok(reckoning),
            Err(_) => self.record.reckon(),
        }
    }

    /// The kernel has what the record comes to.
    pub fn judge(&self) -> Result<(), Wrong> {
        let reckoning = self.reckon()?;
        self.judge_keys(&reckoning)?;
        self.judge_guesses(&reckoning)?;
        self.judge_tokens()?;
        self.judge_outputs(&reckoning)
    }

    /// The keys that are there or depend on a guess, and what each has.
    fn judge_keys(&self, reckoning: &Reckoning) -> Result<(), Wrong> {
        for key in 0..KEYS {
            self.judge_key(reckoning, key)?;
        }
        holds(has_keys(&self.own.kernel, reckoning.keys()), Wrong::Keys)
    }

    fn judge_key(&self, reckoning: &Reckoning, key: u32) -> Result<(), Wrong> {
        let cell = reckoning.cell(Some(key));
        holds(self.value(Some(key)) == cell.value, Wrong::Value)?;
        holds(self.has_tags(key, cell.rests), Wrong::Tags)
    }

    /// Whether a key depends on these guesses.
    fn has_tags(&self, key: u32, rests: u64) -> bool {
        let mut tags = self.own.kernel.tags_of(&key).ids().iter();
        for (place, id) in self.record.undecided().iter().enumerate() {
            if rests & bit_of(place) != 0 && tags.next() != Some(id) {
                return false;
            }
        }
        tags.next().is_none()
    }

    /// How many guesses there are, and what depends on each.
    fn judge_guesses(&self, reckoning: &Reckoning) -> Result<(), Wrong> {
        holds(counted(&self.own.kernel) == self.counts(), Wrong::Status)?;
        for (place, id) in self.record.undecided().iter().enumerate() {
            let keys = dependents(&self.own.kernel, *id);
            let is_so = keys == Some(reckoning.dependents(place));
            holds(is_so, Wrong::Dependents)?;
        }
        Ok(())
    }

    /// How many guesses there are by the record.
    fn counts(&self) -> Counts {
        let undecided = self.record.undecided();
        Counts {
            undecided: undecided.len(),
            struck: self.own.tokens.len().saturating_sub(undecided.len()),
            settled: match undecided.first() {
                Some(id) => id.number(),
                None => self.drawn.saturating_add(1),
            },
        }
    }

    /// What became of the guesses whose tokens are out.
    fn judge_tokens(&self) -> Result<(), Wrong> {
        for token in &self.own.tokens {
            let id = token.id();
            let status = match self.record.place(id) {
                Some(_) => Status::Undecided,
                None => Status::Struck,
            };
            holds(self.own.kernel.status(id) == Some(status), Wrong::Status)?;
        }
        Ok(())
    }

    /// How many outputs of each channel wait, and which channels have one to take.
    fn judge_outputs(&self, reckoning: &Reckoning) -> Result<(), Wrong> {
        let mut channels = 0;
        for channel in 0..CHANNELS {
            let waiting = reckoning.waiting(channel);
            holds(self.own.kernel.waiting(channel) == waiting, Wrong::Output)?;
            if self.due(reckoning, channel).is_some() {
                channels |= bit_of(channel as usize);
            }
        }
        holds(names_one_of(&self.own.kernel, channels), Wrong::Channel)
    }

    /// Commits the guesses whose tokens are left, and ends.
    pub fn end(self, rt: &impl Abort) -> Result<(), Wrong> {
        let Session {
            own,
            record: _,
            taken_out: _,
            drawn: _,
            may_lack: _,
        } = self;
        own.end(rt)
    }
}
