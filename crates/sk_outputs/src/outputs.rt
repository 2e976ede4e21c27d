//! Outputs that wait until what they depend on is decided.
ghost use Rattle.std.specs.Prelude.{◌≡◌, ◌<◌, ◌≤◌, ◌==◌, ◌&&◌, ◌||◌, ◌∷◌, ◌++◌, ◌+◌, cond, nat_lt, ℕ, [], true, false, not, drop, get_or, length, None, OnOk, IfSome};
ghost use Rattle.std.specs.List.{prefix_len, slice_get};
ghost use Rattle.std.specs.Option.{option_copied, option_map};
ghost use Rattle.sk_outputs.specs.Ready.{is_ready, AreCounted, AreReady};
ghost use Rattle.sk_outputs.specs.Resting.{some_rest};
ghost use Rattle.sk_outputs.specs.Said.{said_at, first_of, waiting_of, is_empty, HasRoom, Said};
ghost use Rattle.sk_record.specs.Notes.{has, without};
ghost use Rattle.sk_record.specs.Machine.{lightened, not_dropped, released};

use crate::channels::Channels;
use crate::counts::{count_down, count_of, count_up, reserve_count};
use sk_ids::{GuessId, TagSet};
use std::alloc::{AllocError, Global};
use std::collections::VecDeque;
use std::marker::Model;

/// An output, its channel, and the guesses that it depends on.
#[derive(Drop)]
struct Output<O> {
    to: u16,
    output: O,
    tags: TagSet,
}

impl<O> Model for Output<O> {
    ghost use Rattle.std.specs.Prelude.{ℕ, List};
    ghost use Rattle.sk_outputs.specs.Said.{one_code};

    ghost Value = { (ℕ × O) × List ℕ };

    ghost coded = { one_code O.code };

    ghost view = { λ o. ((o.to, o.output), o.tags) };
}

impl<O> Output<O> {
    fn new(to: u16, output: O, tags: TagSet) -> Output<O>
        ensures { result ≡ ((to, output), tags) }
    {
        Output { to, output, tags }
    }

    fn to(&self) -> u16
        ensures { result ≡ self.now.0.0 }
    {
        self.to
    }

    /// Whether it depends on a guess.
    fn rests(&self) -> bool
        ensures { result ≡ not (is_empty self.now.1) }
    {
        !self.tags.ids().is_empty()
    }

    fn text(&self) -> &O
        ensures { result.now ≡ self.now.0.1 }
    {
        &self.output
    }

    fn output(self) -> O
        ensures { result ≡ self.0.1 }
    {
        let Output {
            to: _,
            output,
            tags: _,
        } = self;
        output
    }

    /// Takes a guess out, and answers true.
    fn lighten(&mut self, id: GuessId) -> bool
        ensures kept { result ≡ true }
        ensures left { self.new ≡ (self.old.0, without id self.old.1) }
    {
        self.tags.without(id);
        true
    }

    fn rests_on(&self, id: GuessId) -> bool
        ensures { result ≡ has id self.now.1 }
    {
        self.tags.contains(id)
    }
}

/// The outputs in the order in which they were said, how many of them each channel has, and the channels that have one to
/// take.
#[derive(Drop)]
pub struct Outputs<O> {
    said: VecDeque<Output<O>>,
    counts: Vec<usize>,
    ready: Channels,
    /// No output depends on a guess of a greater number.
    newest: u64,
}

impl<O> Model for Outputs<O> {
    ghost use Rattle.std.specs.Prelude.{◌≤◌, ◌-◌, max, min, length, vec_len};
    ghost use Rattle.std.specs.VecDeque.{deque_len, deque_capacity};
    ghost use Rattle.sk_outputs.specs.Ready.{AreCounted, AreReady};
    ghost use Rattle.sk_outputs.specs.Resting.{NoneAbove};
    ghost use Rattle.sk_outputs.specs.Said.{SaidView, said_code};

    ghost Value = { SaidView O };

    ghost coded = { said_code O.code };

    ghost view = { λ a. record {
      said = a.said.items;
      room = min (deque_capacity a.said - deque_len a.said)
          (a.ready.places - max (deque_len a.said) (length a.ready.channels));
      counted = vec_len a.counts;
    } };

    ghost invariant = { λ a. AreReady a.said.items a.ready.channels
        × (length a.said.items ≤ a.ready.places)
        × AreCounted a.said.items a.counts.items
        × NoneAbove a.said.items a.newest };
}

/// The number of the newest guess of a set; 0 where it has none.
fn newest_of(tags: &TagSet) -> u64
    ensures { (g : ℕ) → result < g → has g tags.now ≡ false }
{
    match tags.ids() {
        [.., newest] => newest.number(),
        [] => 0,
    }
}

/// The greater of two numbers of guesses.
fn newest_with(newest: u64, other: u64) -> u64
    ensures newest { newest ≤ result }
    ensures other { other ≤ result }
{
    if other > newest { other } else { newest }
}

fn lighten_all<O: Drop>(said: &mut VecDeque<Output<O>>, id: GuessId)
    ensures { said.new.items ≡ lightened id said.old.items }
{
    said.retain_mut(|output: &mut Output<O>| output.lighten(id));
}

fn drop_resting<O: Drop>(said: &mut VecDeque<Output<O>>, id: GuessId)
    ensures { said.new.items ≡ not_dropped id said.old.items }
{
    said.retain(|output: &Output<O>| !output.rests_on(id));
}

/// Counts no more what depends on a guess.
fn count_without<O>(counts: &mut Vec<usize>, said: &VecDeque<Output<O>>, id: GuessId)
    requires { AreCounted said.now.items counts.old.items }
    ensures { AreCounted (not_dropped id said.now.items) counts.new.items }
{
    for place in 0..said.len() {
        let output = &said[place];
        if output.rests_on(id) {
            count_down(counts, output.to());
        }
    }
}

/// How many outputs stand before the first of a channel.
fn others_before<O>(said: &VecDeque<Output<O>>, to: u16) -> usize
    ensures { result ≡ prefix_len (λ o. not (o.0.0 == to)) said.now.items }
{
    for place in 0..said.len() {
        if said[place].to() == to {
            return place;
        }
    }
    said.len()
}

/// How many outputs of a channel wait: the first that depends on a guess, and all behind it.
fn waiting_in<O>(said: &VecDeque<Output<O>>, to: u16) -> usize
    ensures { result ≡ waiting_of (said_at said.now.items to) }
{
    let mut held = 0;
    for place in 0..said.len() {
        if waits(&said[place], to, held) {
            held += 1;
        }
    }
    held
}

/// Whether an output is of a channel and waits, where so many before it do.
fn waits<O>(output: &Output<O>, to: u16, held: usize) -> bool
    ensures { result
        ≡ ((output.now.0.0 == to) && (nat_lt 0 held || not (is_empty output.now.1))) }
{
    output.to() == to && (held > 0 || output.rests())
}

/// Whether an output depends on nothing, and its channel has no other.
fn is_next<O>(counts: &[usize], output: &Output<O>) -> bool
    ensures { result ≡ (is_empty output.now.1 && (get_or counts.now output.now.0.0 0 == 0)) }
{
    !output.rests() && count_of(counts, output.to()) == 0
}

/// Whether the first output of a channel from a place on depends on nothing.
fn is_free<O>(said: &VecDeque<Output<O>>, from: usize, to: u16) -> bool
    ensures { result ≡ is_ready (drop from said.now.items) to }
{
    for place in from..said.len() {
        let output = &said[place];
        if output.to() == to {
            return !output.rests();
        }
    }
    false
}

/// Whether a channel has an output to take, where none of its outputs stands before a place.
fn has_next<O>(counts: &[usize], said: &VecDeque<Output<O>>, from: usize, to: u16) -> bool
    requires counted { AreCounted said.now.items counts.now }
    requires later { is_ready (drop from said.now.items) to ≡ is_ready said.now.items to }
    ensures { result ≡ is_ready said.now.items to }
{
    count_of(counts, to) > 0 && is_free(said, from, to)
}

/// An output decides whether its channel has one to take, as it depends on nothing or on a guess.
fn decide<O>(ready: &mut Channels, output: &Output<O>)
    requires { length ready.old.channels < ready.old.places }
    ensures has { (t : ℕ) → has t ready.new.channels
        ≡ cond (output.now.0.0 == t) (is_empty output.now.1) (has t ready.old.channels) }
    ensures places { ready.old.places ≤ ready.new.places }
    ensures count { length ready.new.channels ≤ length ready.old.channels + 1 }
{
    let channel = output.to();
    if output.rests() {
        ready.take_off(channel);
    } else {
        ready.put(channel);
    }
}

/// Finds the channels that have an output to take. The first output of each decides last. It takes no memory.
fn find_ready<O>(ready: &mut Channels, said: &VecDeque<Output<O>>)
    requires { length said.now.items ≤ ready.old.places }
    ensures ready { AreReady said.now.items ready.new.channels }
    ensures places { ready.old.places ≤ ready.new.places }
{
    ready.clear();
    for place in (0..said.len()).rev() {
        decide(ready, &said[place]);
    }
}

/// Puts on the channel of an output that is said behind others, if it then has one to take.
fn put_next<O>(ready: &mut Channels, counts: &[usize], output: &Output<O>)
    requires { length ready.old.channels < ready.old.places }
    ensures ready { (said : Said O) → AreReady said ready.old.channels → AreCounted said counts.now
        → AreReady (said ++ output.now ∷ []) ready.new.channels }
    ensures places { ready.old.places ≤ ready.new.places }
{
    if is_next(counts, output) {
        ready.put(output.to());
    }
}

/// Takes a channel off, if it has no output to take any more. None of its outputs stands before a place.
fn take_off_last<O>(
    ready: &mut Channels,
    counts: &[usize],
    said: &VecDeque<Output<O>>,
    from: usize,
    to: u16,
)
    requires there { has to ready.old.channels ≡ true }
    requires others { (t : ℕ) → (to == t) ≡ false
        → has t ready.old.channels ≡ is_ready said.now.items t }
    requires counted { AreCounted said.now.items counts.now }
    requires later { is_ready (drop from said.now.items) to ≡ is_ready said.now.items to }
    ensures ready { AreReady said.now.items ready.new.channels }
    ensures places { ready.old.places ≤ ready.new.places }
{
    if !has_next(counts, said, from, to) {
        ready.take_off(to);
    }
}

impl<O> Outputs<O> {
    /// Nothing is said yet.
    pub fn new(alloc: Global) -> Outputs<O>
        ensures { result.said ≡ [] }
    {
        Outputs {
            said: VecDeque::new(alloc),
            counts: Vec::new(alloc),
            ready: Channels::new(alloc),
            newest: 0,
        }
    }
}

impl<O> Outputs<O> {
    /// How many outputs are there, taken out of no channel yet.
    pub fn len(&self) -> usize
        ensures { result ≡ length self.now.said }
    {
        self.said.len()
    }

    /// How many outputs of a channel wait: the first that depends on a guess, and all behind it.
    pub fn waiting(&self, to: u16) -> usize
        ensures { result ≡ waiting_of (said_at self.now.said to) }
    {
        if count_of(self.counts.as_slice(), to) == 0 {
            return 0;
        }
        waiting_in(&self.said, to)
    }

    /// The first output of a channel, whether it waits or not.
    pub fn first(&self, to: u16) -> Option<&O>
        ensures { option_copied result ≡ first_of (said_at self.now.said to) }
    {
        if count_of(self.counts.as_slice(), to) == 0 {
            return None;
        }
        match self.said.get(others_before(&self.said, to)) {
            Some(output) => Some(output.text()),
            None => None,
        }
    }

    /// The output of a channel that `take_out` would take out; `None` where it would take none.
    pub fn next_output(&self, to: u16) -> Option<&O>
        ensures { option_copied result
            ≡ option_map (λ w. w.1) (slice_get (released (said_at self.now.said to)) 0) }
    {
        if !self.ready.contains(to) {
            return None;
        }
        self.first(to)
    }

    /// A channel that has an output to take, found without going through the others; `None` where none has. The one that was
    /// said first is told, if it may be taken.
    pub fn next_channel(&self) -> Option<u16>
        ensures some { IfSome result (λ to. released (said_at self.now.said to) ≡ [] → ⊥) }
        ensures none { result ≡ None → (to : ℕ) → released (said_at self.now.said to) ≡ [] }
    {
        match self.said.front() {
            Some(output) if !output.rests() => Some(output.to()),
            _ => self.ready.first(),
        }
    }
}

impl<O: Drop> Outputs<O> {
    /// Makes room for one output of a channel.
    pub fn reserve(&mut self, to: u16) -> Result<(), AllocError>
        ensures same { self.new.said ≡ self.old.said }
        ensures ok { OnOk result (HasRoom self.new to) }
    {
        self.said.reserve(1)?;
        self.ready.reserve(self.said.len() + 1)?;
        reserve_count(&mut self.counts, to)
    }

    /// Says an output to a channel, for which there is room.
    pub fn say(&mut self, to: u16, output: O, tags: TagSet)
        requires { HasRoom self.old to }
        ensures { self.new.said ≡ self.old.said ++ ((to, output), tags) ∷ [] }
    {
        self.newest = newest_with(self.newest, newest_of(&tags));
        let output = Output::new(to, output, tags);
        put_next(&mut self.ready, self.counts.as_slice(), &output);
        count_up(&mut self.counts, to);
        self.said.push_back_reserved(output);
    }

    /// Whether an output may depend on a guess.
    fn may_rest_on(&self, id: GuessId) -> bool
        ensures { result ≡ false → some_rest self.now.said id ≡ false }
    {
        id.number() <= self.newest
    }

    /// A guess is committed. It takes no memory, and goes over no output where the guess is newer than each on which one depends.
    pub fn commit(&mut self, id: GuessId)
        ensures { self.new.said ≡ lightened id self.old.said }
    {
        if !self.may_rest_on(id) {
            return;
        }
        lighten_all(&mut self.said, id);
        find_ready(&mut self.ready, &self.said);
    }

    /// Throws away what depends on a guess. It takes no memory, and goes over no output where the guess is newer than each on
    /// which one depends.
    pub fn drop_of(&mut self, id: GuessId)
        ensures { self.new.said ≡ not_dropped id self.old.said }
    {
        if !self.may_rest_on(id) {
            return;
        }
        count_without(&mut self.counts, &self.said, id);
        drop_resting(&mut self.said, id);
        find_ready(&mut self.ready, &self.said);
    }

    /// Takes out the first output of a channel, if it depends on nothing. It takes no memory.
    pub fn take_out(&mut self, to: u16) -> Option<O>
        ensures some { IfSome result
            (λ output. said_at self.old.said to ≡ ((to, output), []) ∷ said_at self.new.said to) }
        ensures others { (t : ℕ) → (to == t) ≡ false
            → said_at self.new.said t ≡ said_at self.old.said t }
        ensures none { result ≡ None → self.new.said ≡ self.old.said }
        ensures held { result ≡ None → released (said_at self.old.said to) ≡ [] }
    {
        if !self.ready.contains(to) {
            return None;
        }
        let place = others_before(&self.said, to);
        let Some(first) = self.said.remove(place) else {
            unreachable!();
        };
        count_down(&mut self.counts, to);
        take_off_last(
            &mut self.ready,
            self.counts.as_slice(),
            &self.said,
            place,
            to,
        );
        Some(first.output())
    }
}
