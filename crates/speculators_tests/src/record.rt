//! A plain record of the steps that depend on no failed guess, and what they come to.
use crate::job::{Deed, Job, KEYS, Written, bit_of};
use sk_ids::GuessId;
use std::alloc::{AllocError, Global};

/// A step that was taken, with its guess while that is undecided.
#[derive(Clone, Copy, Drop)]
struct Taken {
    job: Job,
    guess: Option<GuessId>,
}

/// An output that was said, and whether it depends on an undecided guess.
#[derive(Clone, Copy, Drop)]
pub struct Heard {
    channel: u16,
    output: u64,
    rests: bool,
}

/// What a key has, and a bit for each of the undecided guesses that it depends on, in their order.
#[derive(Clone, Copy, Drop)]
pub struct Cell {
    pub value: Option<u64>,
    pub rests: u64,
}

/// The steps that depend on no failed guess, and the undecided guesses, in order.
#[derive(Drop)]
pub struct Record {
    alloc: Global,
    taken: Vec<Taken>,
    undecided: Vec<GuessId>,
}

/// What a plain run of the steps comes to.
#[derive(Drop)]
pub struct Reckoning {
    cells: [Cell; KEYS as usize],
    heard: Vec<Heard>,
    /// A bit for each undecided guess that the step at this place depends on.
    steps: Vec<u64>,
}

/// What an absent key has.
const ABSENT: Cell = Cell {
    value: None,
    rests: 0,
};

impl Reckoning {
    fn new(alloc: Global) -> Reckoning {
        Reckoning {
            cells: [ABSENT; KEYS as usize],
            heard: Vec::new(alloc),
            steps: Vec::new(alloc),
        }
    }

    /// What a key has.
    pub fn cell(&self, key: Option<u32>) -> Cell {
        let Some(key) = key else {
            return ABSENT;
        };
        match self.cells.get(key as usize) {
            Some(cell) => *cell,
            None => ABSENT,
        }
    }

    /// The guesses that a step depends on through what it looks at and writes.
    fn rests(&self, deed: &Deed) -> u64 {
        let mut rests = 0;
        for key in deed.looked {
            rests |= self.cell(key).rests;
        }
        for (key, _) in deed.written {
            rests |= self.cell(key).rests;
        }
        rests
    }

    fn write(&mut self, key: Option<u32>, written: Written, rests: u64) {
        if let Some(key) = key {
            if let Some(cell) = self.cells.get_mut(key as usize) {
                let value = written.on(cell.value);
                *cell = Cell { value, rests };
            }
        }
    }

    /// A step more, which also depends on this guess.
    fn takes(&mut self, job: &Job, own: u64) -> Result<(), AllocError> {
        let deed = job.deed(self.cell(job.actor).value, self.cell(job.looks).value);
        let rests = own | self.rests(&deed);
        for (key, written) in deed.written {
            self.write(key, written, rests);
        }
        if let Some((channel, output)) = deed.said {
            self.heard.push(Heard {
                channel,
                output,
                rests: rests != 0,
            })?;
        }
        self.steps.push(rests)?;
        Ok(())
    }

    /// A bit for each key that depends on the guess at a place.
    pub fn dependents(&self, place: usize) -> u64 {
        let mut keys = 0;
        for key in 0..KEYS {
            if self.cell(Some(key)).rests & bit_of(place) != 0 {
                keys |= bit_of(key as usize);
            }
        }
        keys
    }

    /// A bit for each key that is there or depends on a guess.
    pub fn keys(&self) -> u64 {
        let mut keys = 0;
        for key in 0..KEYS {
            let cell = self.cell(Some(key));
            if cell.value.is_some() || cell.rests != 0 {
                keys |= bit_of(key as usize);
            }
        }
        keys
    }

    /// The output of a channel behind so many, if neither it nor one before it depends on a guess.
    pub fn released(&self, channel: u16, count: usize) -> Option<u64> {
        let mut place = 0usize;
        for heard in &self.heard {
            if heard.channel == channel {
                if heard.rests {
                    return None;
                }
                if place == count {
                    return Some(heard.output);
                }
                place = place.wrapping_add(1);
            }
        }
        None
    }

    /// How many outputs of a channel wait: the first that depends on a guess, and all behind it.
    pub fn waiting(&self, channel: u16) -> usize {
        let mut count = 0usize;
        for heard in &self.heard {
            if heard.channel == channel && (heard.rests || count > 0) {
                count = count.wrapping_add(1);
            }
        }
        count
    }
}

impl Record {
    pub fn new(alloc: Global) -> Record {
        Record {
            alloc,
            taken: Vec::new(alloc),
            undecided: Vec::new(alloc),
        }
    }

    /// Makes room for a step more, with a guess.
    pub fn reserve(&mut self) -> Result<(), AllocError> {
        self.taken.reserve(1)?;
        self.undecided.reserve(1)
    }

    /// A step more, with its guess or none.
    pub fn take(&mut self, job: &Job, guess: Option<GuessId>) -> Result<(), AllocError> {
        if let Some(id) = &guess {
            self.undecided.push(*id)?;
        }
        self.taken.push(Taken { job: *job, guess })?;
        Ok(())
    }

    pub fn undecided(&self) -> &[GuessId] {
        self.undecided.as_slice()
    }

    /// The place of a guess among the undecided ones.
    pub fn place(&self, id: GuessId) -> Option<usize> {
        self.undecided.iter().position(|other| *other == id)
    }

    /// The bit of an undecided guess.
    fn bit(&self, guess: Option<GuessId>) -> u64 {
        let Some(id) = guess else {
            return 0;
        };
        match self.place(id) {
            Some(place) => bit_of(place),
            None => 0,
        }
    }

    /// What a plain run of the steps comes to: each is done again, on what is there then.
    pub fn reckon(&self) -> Result<Reckoning, AllocError> {
        let mut reckoning = Reckoning::new(self.alloc);
        for taken in &self.taken {
            let own = self.bit(taken.guess);
            reckoning.takes(&taken.job, own)?;
        }
        Ok(reckoning)
    }

    /// A guess is committed: nothing depends on it any more.
    pub fn commit(&mut self, id: GuessId) {
        self.undecided.retain(|other| *other != id);
        for taken in self.taken.as_mut_slice() {
            if taken.guess == Some(id) {
                taken.guess = None;
            }
        }
    }

    /// Parts the steps that depend on none of these guesses from those that do, of which the guesses are told.
    fn part(
        &self,
        reckoning: &Reckoning,
        bits: u64,
        left: &mut Vec<Taken>,
        struck: &mut Vec<Option<GuessId>>,
    ) -> Result<(), AllocError> {
        for (place, taken) in self.taken.iter().enumerate() {
            let rests = reckoning.steps.get(place).copied().unwrap_or(0);
            if rests & bits == 0 {
                left.push(*taken)?;
            } else {
                struck.push(taken.guess)?;
            }
        }
        Ok(())
    }

    /// A guess fails: the steps that depend on it are struck, with their guesses.
    pub fn fail(&mut self, id: GuessId, reckoning: &Reckoning) -> Result<(), AllocError> {
        let mut left = Vec::new(self.alloc);
        let mut struck = Vec::new(self.alloc);
        self.part(reckoning, self.bit(Some(id)), &mut left, &mut struck)?;
        self.taken = left;
        self.undecided.retain(|open| !struck.contains(&Some(*open)));
        Ok(())
    }
}
