//! The desk.
ghost use Rattle.std.specs.Prelude.{◌≡◌, ◌||◌, ℕ, List, ◌+◌, ◌-◌, ◌<◌, ◌≤◌, [], ◌++◌, nat_lt, length, is_some, option_map, OnOk, IfOk, IfSome, Some, None, vec_capacity};
ghost use Rattle.sk_client.specs.Base.{option_copied, nat_cmp, IsStrictlySortedBy, has, cause, next_at, undecided_at};
ghost use Rattle.sk_client.specs.Base.{room, unplanned, LAST_REQUEST, DecidesPost, input_in};
ghost use Rattle.sk_client.specs.Pending.{ask_of};
ghost use Rattle.sk_client.specs.Wish.{wanted, brought, wished, wished_at};
ghost use Rattle.sk_client.specs.Desk.{Rule, opened, pending, requests_taken, asks_for, asks_on, asked_count, kept_for, forgotten, kept_after, answer_kept, cached, buffer, rule, rule_next, rule_of, unless_kept, guess_refused_at, rests_of, request_of, sent, first_sent, first_taken, first_guess, expected, fits_ask, reply_refused, is_lost, lost_by, is_void, given, given_answer, decision, decision_answer, input_of};
ghost use Rattle.sk_client.specs.Upcoming.{turn_step, reply_step};
ghost use Rattle.sk_client.specs.DeskCalls.{TurnPost, RulePost, ReplyPost, handed_back, ShutPost, DeskEpochPost};

use crate::pending::{BoxedAsk, BoxedRequest, KeptAnswer};
use crate::requests::Requests;
use crate::rule::{Wanted, Wish, fetch_wish, store_wish};
use sk_guesses::Status;
use sk_ids::{Entity, GuessId, Name, Pid, TagSet, Text};
use sk_kernel::{EpochRefusal, Holder, Kernel, Outcome};
use sk_objects::Value;
use sk_objects::content::LAST_VERSION;
use sk_plain::{InputRef, Next, Refusal, Trace, View};
use sk_script::Input;
use sk_server::{Answer, LAST_REQUEST, Reply, Request};
use sk_terminal::Texts;
use std::alloc::{AllocError, Global};
use std::marker::Model;
use thiserror::Error;

/// The number of the first request that a desk makes.
const FIRST_REQUEST: u64 = 1;

/// What a turn did.
#[derive(Clone, Copy, Debug, PartialEq, Eq)]
pub enum Turn {
    Stepped,
    Guessed(GuessId),
    /// No step: this request was made.
    Asked(u64),
}

/// What a reply did.
#[derive(Clone, Copy, Debug, PartialEq, Eq)]
pub enum Given {
    Committed(GuessId),
    Failed(GuessId),
    /// The guess was struck before.
    Gone(GuessId),
    /// The asked step of this request was taken.
    Taken(u64),
    /// Nothing is done for this request.
    Forgotten(u64),
}

/// Why a reply came back, in the order in which the causes are tried.
#[derive(Clone, Copy, Debug, PartialEq, Eq, Error)]
pub enum ReplyRefusal {
    #[error("the reply to request {expected} is next")]
    OutOfTurn { expected: u64 },
    #[error("the reply does not fit what was asked")]
    WrongKind,
    #[error("out of memory")]
    Memory,
}

/// So many requests have no reply.
#[derive(Clone, Copy, Debug, PartialEq, Eq, Error)]
#[error("{0} requests have no reply")]
pub struct Pending(pub usize);

/// A client's desk: a kernel, its requests without a reply, and answers that are kept for processes that were
/// taken back. It can't be dropped: `shut` or `abandon` it.
pub struct Desk {
    pub(crate) holder: Holder,
    alloc: Global,
    requests: Requests,
    first: u64,
    next: u64,
    kept: Vec<KeptAnswer>,
}

impl Model for Desk {
    ghost use Rattle.std.specs.Prelude.{length, vec_capacity};
    ghost use Rattle.sk_client.specs.Desk.{DeskView, desk_code};
    ghost use Rattle.sk_client.specs.DeskInvariant.{IsTidy};

    ghost Value = { DeskView };

    ghost coded = { desk_code };

    ghost view = { λ d. record {
      kernel = d.holder.kernel;
      taken = d.requests.taken;
      waiting = d.requests.waiting;
      first = d.first;
      next = d.next;
      kept = d.kept.items;
    } };

    ghost invariant = { λ d. IsTidy d.holder.held d.requests.taken d.requests.waiting
        (length d.kept.items) (vec_capacity d.kept) };
}

/// Makes room for one more request, and for its answer.
#[inline(always)]
fn make_room(requests: &mut Requests, kept: &mut Vec<KeptAnswer>) -> Result<(), AllocError>
    ensures taken { requests.new.taken ≡ requests.old.taken }
    ensures waiting { requests.new.waiting ≡ requests.old.waiting }
    ensures kept { kept.new.items ≡ kept.old.items }
    ensures less { vec_capacity kept.old ≤ vec_capacity kept.new }
    ensures room { OnOk result
        (length (requests.old.taken ++ requests.old.waiting) < requests.new.room) }
    ensures answer { OnOk result
        (length kept.old.items + length (requests.old.taken ++ requests.old.waiting)
        < vec_capacity kept.new) }
{
    requests.reserve()?;
    kept.reserve(requests.len() + 1)
}

/// The answer that is kept for a process.
fn kept_for(kept: &[KeptAnswer], pid: Pid) -> Option<&Input>
    ensures { option_copied result ≡ kept_for pid kept.now }
{
    for one in kept {
        if one.process == pid {
            return Some(&one.input);
        }
    }
    None
}

/// The input of a step of a process, which brings its kept answer or none.
fn brought(kept: &[KeptAnswer], pid: Pid, takes_kept: bool) -> InputRef<'_>
    ensures { input_in result ≡ brought takes_kept (kept_for pid kept.now) }
{
    if !takes_kept {
        return InputRef::None;
    }
    match kept_for(kept, pid) {
        Some(input) => InputRef::of(input),
        None => InputRef::None,
    }
}

/// A step with the kept answer, or this wish where there is none.
fn unless_kept<'a>(kept: Option<&Input>, wish: Wish<'a>) -> Wish<'a>
    ensures { (bytes : List ℕ)
        → wished (option_copied kept.entry) bytes result
        ≡ unless_kept (option_copied kept.entry)
        (wished (option_copied kept.entry) bytes wish.entry) }
{
    match kept {
        Some(_) => Wish::TakesKept,
        None => wish,
    }
}

/// Whether a guess failed or was struck; true of one that an earlier epoch made, on which nothing depends.
fn is_lost(kernel: &Kernel, id: GuessId) -> bool
    ensures { result ≡ is_lost kernel.now id }
{
    let _sound = kernel.trace();
    if id.number() < kernel.opening().guess() {
        return true;
    }
    lost_by(kernel.status(id))
}

/// Whether a guess of this status failed or was struck.
fn lost_by(status: Option<Status>) -> bool
    ensures { result ≡ lost_by status }
{
    !matches!(status, Some(Status::Undecided | Status::Committed))
}

/// Whether a request depends on a guess that failed or was struck.
fn is_void(kernel: &Kernel, request: &BoxedRequest) -> bool
    ensures { result ≡ is_void kernel.now request.now }
{
    request.rests.ids().iter().any(|id| is_lost(kernel, *id))
}

/// Whether a reply is of a kind that fits what was asked.
fn fits_ask(ask: &BoxedAsk, answer: &Answer) -> bool
    ensures { result ≡ fits_ask (ask_of ask.now) answer.now }
{
    match (ask, answer) {
        (BoxedAsk::Get(_), Answer::Copy(_) | Answer::Dropped) => true,
        (BoxedAsk::Get(_), _) | (_, Answer::Copy(_)) => false,
        (BoxedAsk::Store(_, version, _), Answer::Yes) => *version != LAST_VERSION,
        _ => true,
    }
}

/// What the step of an asked request is given.
fn input_of(answer: &Answer) -> Option<InputRef<'_>>
    ensures { option_map input_in result ≡ input_of answer.now }
{
    match answer {
        Answer::Yes => Some(InputRef::Good),
        Answer::No(content) => Some(InputRef::Stale(content)),
        Answer::Copy(content) => Some(InputRef::Fresh(content)),
        Answer::Dropped => None,
    }
}

/// What the process gets of a refused guess.
fn answer_kept<'a>(request: &BoxedRequest, answer: &'a Answer) -> Option<InputRef<'a>>
    ensures { option_map input_in result ≡ answer_kept request.now.ask answer.now }
{
    match (&request.ask, answer) {
        (BoxedAsk::Store(..), Answer::No(content)) => Some(InputRef::Stale(content)),
        (_, Answer::No(content)) => Some(InputRef::Fresh(content)),
        _ => None,
    }
}

/// The input that is lent.
fn owned(input: InputRef<'_>) -> Input
    ensures { result ≡ input_in input.entry }
{
    match input {
        InputRef::None => Input::None,
        InputRef::Good => Input::Good,
        InputRef::Fresh(content) => Input::Fresh(*content),
        InputRef::Stale(content) => Input::Stale(*content),
    }
}

/// The guesses of either set. Mostly one of them has none.
fn either(one: &TagSet, other: &TagSet) -> Result<TagSet, AllocError>
    ensures members { IfOk result
        (λ all. (id : ℕ) → has id all ≡ (has id one.now || has id other.now)) }
    ensures rising { IfOk result (λ all. IsStrictlySortedBy nat_cmp all) }
{
    match (one.ids(), other.ids()) {
        (_, []) => one.copy(),
        ([], _) => other.copy(),
        _ => one.union(other),
    }
}

/// Decides a guess by this answer.
fn decide_guess(holder: &mut Holder, id: GuessId, answer: &Answer) -> Option<Outcome>
    ensures { DecidesPost result (decision id answer.now) id holder.old holder.new }
{
    match answer {
        Answer::Yes => holder.commit(id),
        _ => holder.fail(id),
    }
}

/// Forgets the kept answer of a process.
fn forget(kept: &mut Vec<KeptAnswer>, pid: Pid)
    ensures items { kept.new.items ≡ forgotten pid kept.old.items }
    ensures fewer { length kept.new.items ≤ length kept.old.items }
    ensures room { vec_capacity kept.new ≡ vec_capacity kept.old }
{
    if kept.is_empty() {
        return;
    }
    kept.retain(|one: &KeptAnswer| one.process != pid);
}

/// Keeps an answer for a process, for which there is room.
fn keep(kept: &mut Vec<KeptAnswer>, pid: Pid, answer: Option<InputRef<'_>>)
    requires { length kept.old.items < vec_capacity kept.old }
    ensures items { kept.new.items
        ≡ kept_after pid (option_map input_in answer.entry) kept.old.items }
    ensures fewer { length kept.new.items ≤ length kept.old.items + 1 }
    ensures room { vec_capacity kept.new ≡ vec_capacity kept.old }
{
    if let Some(input) = answer {
        forget(kept, pid);
        kept.push_reserved(KeptAnswer {
            process: pid,
            input: owned(input),
        });
    }
}

impl Desk {
    /// Takes a kernel of which no guess is undecided. This takes no memory.
    pub fn new(alloc: Global, kernel: Kernel) -> Desk
        requires { undecided_at kernel ≡ [] }
        ensures { result ≡ opened kernel }
    {
        Desk {
            holder: Holder::new(alloc, kernel),
            alloc,
            requests: Requests::new(alloc),
            first: FIRST_REQUEST,
            next: FIRST_REQUEST,
            kept: Vec::new(alloc),
        }
    }

    /// The number of the first request since the desk was made, or since its last epoch began. This takes no memory.
    pub fn first(&self) -> u64
        ensures { result ≡ self.now.first }
    {
        self.first
    }

    pub fn kernel(&self) -> &Kernel
        ensures { result.now ≡ self.now.kernel }
    {
        self.holder.kernel()
    }

    /// How many requests have no reply.
    pub fn pending(&self) -> usize
        ensures { result ≡ length (pending self.now) }
    {
        self.requests.len()
    }

    /// How many requests were taken since then, with or without a reply by now.
    pub fn requests_taken(&self) -> u64
        ensures { result ≡ requests_taken self.now }
    {
        let made = self.next.saturating_sub(self.first);
        made.saturating_sub(self.requests.waiting() as u64)
    }

    /// Whether a process waits for a reply.
    pub(crate) fn asks_for(&self, pid: Pid) -> bool
        ensures { result ≡ asks_for pid (pending self.now) }
    {
        self.requests.asks_for(pid)
    }

    /// Whether a process waits for a reply on this name.
    fn asks_on(&self, name: &Name) -> bool
        ensures { result ≡ asks_on name.now (pending self.now) }
    {
        self.requests.asks_on(name)
    }

    /// The places of the trace that are free, with one kept for the step of each asked request.
    pub(crate) fn free_places(&self) -> usize
        ensures { result ≡ room self.now.kernel - asked_count (pending self.now) }
    {
        self.kernel().room().saturating_sub(self.requests.asked())
    }

    /// The version that is cached of a name.
    fn cached(&self, name: &Name) -> Option<u64>
        ensures { result ≡ cached self.now.kernel name.now }
    {
        match self.kernel().value(&Entity::Copy(*name)) {
            Some(View::Value(Value::Copy(held))) => Some(held.content().version()),
            _ => None,
        }
    }

    /// The buffer of a process.
    fn buffer(&self, pid: Pid) -> Text
        ensures { result ≡ buffer self.now.kernel pid }
    {
        match self.kernel().value(&Entity::Proc(pid)) {
            Some(View::Process(process)) => process.buffer,
            Some(View::Value(_)) => Text::empty(),
            None => Text::empty(),
        }
    }

    /// The wish of a turn for what the process does next.
    #[inline(always)]
    fn wish_next<'a>(&self, pid: Pid, next: &'a Next) -> Result<Wish<'a>, Refusal>
        ensures { wished_at self.now pid result ≡ rule_next self.now pid next.now }
    {
        let wish = match next {
            Next::Signal => return Ok(Wish::Steps),
            Next::Fetch(name) => {
                if self.asks_on(name) {
                    return Err(Refusal::Blocked);
                }
                fetch_wish(name, self.cached(name))
            }
            Next::Store(name) => {
                if self.asks_on(name) {
                    return Err(Refusal::Blocked);
                }
                store_wish(name, self.cached(name))
            }
            Next::Private | Next::Waits | Next::Full | Next::Other => Wish::Steps,
        };
        Ok(unless_kept(kept_for(&self.kept, pid), wish))
    }

    /// What a turn is to do, by what the process does next; or why it does nothing.
    #[inline(always)]
    fn wish_behind<'a>(
        &self,
        pid: Pid,
        next: &'a Result<Next, Refusal>,
    ) -> Result<Wish<'a>, Refusal>
        ensures { wished_at self.now pid result ≡ rule_of self.now pid next.now }
    {
        let next = match next {
            Ok(next) => next,
            Err(why) => return Err(*why),
        };
        if self.asks_for(pid) {
            return Err(Refusal::Blocked);
        }
        self.wish_next(pid, next)
    }

    /// The wish of a turn of a process, by the first rule that applies. What the process does next is lent.
    #[inline(always)]
    fn wish<'a>(&self, pid: Pid, next: &'a Result<Next, Refusal>) -> Result<Wish<'a>, Refusal>
        requires { next.now ≡ unplanned (next_at self.now.kernel pid) }
        ensures { wished_at self.now pid result ≡ rule self.now pid }
    {
        self.wish_behind(pid, next)
    }

    /// The process and the input of the step that a turn would take, where its rule takes one. This takes no memory.
    pub fn turn_step(&self, pid: Pid) -> Option<(Pid, Input)>
        ensures { result ≡ turn_step pid (rule self.now pid) }
    {
        let next = self.kernel().heading(pid);
        match self.wish(pid, &next) {
            Ok(Wish::Steps) => Some((pid, owned(brought(&self.kept, pid, false)))),
            Ok(Wish::TakesKept) => Some((pid, owned(brought(&self.kept, pid, true)))),
            Ok(Wish::Guesses(_)) => Some((pid, Input::Good)),
            Ok(Wish::Asks(_)) | Err(_) => None,
        }
    }

    /// The process of the oldest taken request, and what a step of it would be given by this reply. This takes no
    /// memory.
    pub fn reply_step(&self, reply: &Reply) -> Option<(Pid, Input)>
        ensures { result ≡ reply_step reply.now self.now.taken }
    {
        let process = self.requests.first_taken()?.process;
        let input = input_of(&reply.answer)?;
        Some((process, owned(input)))
    }

    /// Takes a turn of a process. Refusals: those of the kernel's step, with one place of the trace kept for
    /// each asked request; `Blocked` where the process, or another one on the same name, waits for a reply;
    /// `TooMany` where no request's number is left. After a refusal everything is as it was.
    #[inline(always)]
    pub fn turn(&mut self, pid: Pid) -> Result<Turn, Refusal>
        ensures { TurnPost result self.old pid self.new }
    {
        let next = self.kernel().heading(pid);
        match self.wish(pid, &next)? {
            Wish::Steps => self.take_step(pid, false),
            Wish::TakesKept => self.take_step(pid, true),
            Wish::Guesses(want) => self.guess(pid, &want),
            Wish::Asks(want) => self.ask(pid, &want),
        }
    }

    /// A step, which takes or forgets the kept answer of its process.
    #[inline(always)]
    fn take_step(&mut self, pid: Pid, takes_kept: bool) -> Result<Turn, Refusal>
        ensures { RulePost result self.old pid
            (Rule.Steps (brought takes_kept (kept_for pid self.old.kept))) self.new }
    {
        if self.free_places() < 1 {
            let kernel = self.holder.kernel();
            let why = kernel.step_refusal(pid, brought(&self.kept, pid, takes_kept));
            return Err(why.unwrap_or(Refusal::TraceFull));
        }
        let input = brought(&self.kept, pid, takes_kept);
        if let Err(why) = self.holder.step(pid, input) {
            return Err(why);
        }
        forget(&mut self.kept, pid);
        Ok(Turn::Stepped)
    }

    /// The undecided guesses that a fetch or store of a name by the process depends on.
    #[inline(always)]
    fn rests(&self, pid: Pid, name: &Name) -> Result<TagSet, AllocError>
        ensures { IfOk result (λ rests. rests ≡ rests_of self.now.kernel pid name.now) }
    {
        let kernel = self.kernel();
        if kernel.undecided() == 0 {
            return Ok(TagSet::new(self.alloc));
        }
        let _sound = kernel.trace();
        let process = kernel.tags_of(&Entity::Proc(pid));
        let copy = kernel.tags_of(&Entity::Copy(*name));
        either(process, copy)
    }

    /// What is asked, with the bytes of a store.
    fn asking(&self, pid: Pid, want: &Wanted<'_>) -> Result<BoxedAsk, AllocError>
        ensures { IfOk result (λ ask. ask_of ask ≡ wanted (buffer self.now.kernel pid) want.now) }
    {
        match want {
            Wanted::Get(name) => Ok(BoxedAsk::Get(**name)),
            Wanted::Check(name, version) => Ok(BoxedAsk::Check(**name, *version)),
            Wanted::Store(name, version) => {
                let bytes = Box::new(self.alloc, self.buffer(pid))?;
                Ok(BoxedAsk::Store(**name, *version, bytes))
            }
        }
    }

    /// The next request, as it is made without a guess, and what it depends on once more.
    #[inline(always)]
    fn draft(&self, pid: Pid, want: &Wanted<'_>) -> Result<(BoxedRequest, TagSet), AllocError>
        ensures request { IfOk result
            (λ draft. draft.0
            ≡ request_of self.now pid (wanted (buffer self.now.kernel pid) want.now) None) }
        ensures again { IfOk result (λ draft. draft.1 ≡ draft.0.rests) }
    {
        let ask = self.asking(pid, want)?;
        let rests = self.rests(pid, ask.name())?;
        let again = rests.copy()?;
        let request = BoxedRequest {
            number: self.next,
            process: pid,
            ask,
            guess: None,
            rests,
            settled: self.kernel().settled(),
        };
        Ok((request, again))
    }

    /// Whether no number is left for a request.
    fn is_numbered_out(&self) -> bool
        ensures { result ≡ nat_lt LAST_REQUEST self.now.next }
    {
        self.next > LAST_REQUEST
    }

    /// The first cause against a guess with `Good`.
    fn guess_refusal(&self, pid: Pid) -> Option<Refusal>
        ensures refusal { result ≡ guess_refused_at self.now pid }
        ensures told { IfSome result (λ why. cause why ≡ Some why) }
    {
        if let Some(why) = self.kernel().guess_refusal(pid, InputRef::Good) {
            return Some(why);
        }
        if self.is_numbered_out() {
            return Some(Refusal::TooMany);
        }
        if self.free_places() < 2 {
            return Some(Refusal::TraceFull);
        }
        None
    }

    /// The first cause against a guess with `Good`, which is want of memory where there is no other.
    fn why_no_guess(&self, pid: Pid) -> Refusal
        ensures { guess_refused_at self.now pid ≡ cause result }
    {
        self.guess_refusal(pid).unwrap_or(Refusal::Memory)
    }

    /// A step with a guess that the cached copy is good, and a request that asks whether it is.
    fn guess(&mut self, pid: Pid, want: &Wanted<'_>) -> Result<Turn, Refusal>
        ensures { RulePost result self.old pid
            (Rule.Guesses (wanted (buffer self.old.kernel pid) want.now)) self.new }
    {
        if self.is_numbered_out() {
            return Err(self.why_no_guess(pid));
        }
        if self.free_places() < 2 {
            return Err(self.why_no_guess(pid));
        }
        let Ok((mut request, again)) = self.draft(pid, want) else {
            return Err(self.why_no_guess(pid));
        };
        let Ok(()) = make_room(&mut self.requests, &mut self.kept) else {
            return Err(self.why_no_guess(pid));
        };
        let id = match self.holder.guess(pid, InputRef::Good) {
            Ok(id) => id,
            Err(why) => return Err(why),
        };
        request.guess = Some(id);
        self.requests.push(request, again);
        self.next += 1;
        Ok(Turn::Guessed(id))
    }

    /// A request without a step. It stands apart, since the bytes of a store are large.
    #[inline(never)]
    fn ask(&mut self, pid: Pid, want: &Wanted<'_>) -> Result<Turn, Refusal>
        ensures { RulePost result self.old pid
            (Rule.Asks (wanted (buffer self.old.kernel pid) want.now)) self.new }
    {
        if self.is_numbered_out() {
            return Err(Refusal::TooMany);
        }
        if self.free_places() < 1 {
            return Err(Refusal::TraceFull);
        }
        let Ok((request, again)) = self.draft(pid, want) else {
            return Err(Refusal::Memory);
        };
        let Ok(()) = make_room(&mut self.requests, &mut self.kept) else {
            return Err(Refusal::Memory);
        };
        let number = self.next;
        self.requests.push(request, again);
        self.next += 1;
        Ok(Turn::Asked(number))
    }

    /// The oldest request that waits.
    pub(crate) fn first_waiting(&self) -> Option<&BoxedRequest>
        ensures { option_map sent (option_copied result) ≡ first_sent self.now.waiting }
    {
        self.requests.first_waiting()
    }

    /// Takes the oldest request that waits, if there is one, without a copy of it to send.
    pub(crate) fn take_unsent(&mut self)
        ensures { self.new ≡ first_taken self.old self.old.waiting }
    {
        self.requests.take_unsent();
    }

    /// Takes the oldest request that waits; `None` where none does. This takes no memory.
    pub fn take_request(&mut self) -> Option<Request>
        ensures request { result ≡ first_sent self.old.waiting }
        ensures taken { self.new ≡ first_taken self.old self.old.waiting }
    {
        self.requests.take()
    }

    /// The number of the next request to be taken.
    fn next_taken(&self) -> u64
        ensures { result ≡ expected self.now self.now.waiting }
    {
        match self.requests.first_waiting() {
            Some(waiting) => waiting.number,
            None => self.next,
        }
    }

    /// The number that `OutOfTurn` tells: that of the oldest taken request without a reply, or of the next one to be
    /// taken. This takes no memory.
    pub fn expected(&self) -> u64
        ensures { result ≡ expected self.now (pending self.now) }
    {
        match self.requests.first_taken() {
            Some(request) => request.number,
            None => self.next_taken(),
        }
    }

    /// Why a reply comes back, want of memory aside.
    #[inline(always)]
    fn reply_refusal(&self, reply: &Reply) -> Option<ReplyRefusal>
        ensures { result ≡ reply_refused self.now reply.now self.now.taken }
    {
        let Some(request) = self.requests.first_taken() else {
            let expected = self.expected();
            return Some(ReplyRefusal::OutOfTurn { expected });
        };
        if request.number != reply.number {
            let expected = self.expected();
            return Some(ReplyRefusal::OutOfTurn { expected });
        }
        if !fits_ask(&request.ask, &reply.answer) {
            return Some(ReplyRefusal::WrongKind);
        }
        None
    }

    /// Gives the reply to the oldest request that was taken. Refusals: `OutOfTurn` where it has another
    /// number, `WrongKind` where it does not fit what was asked, `Memory` where the asked step wants some.
    /// After a refusal everything is as it was.
    pub fn give_reply(&mut self, reply: Reply) -> Result<Given, (Reply, ReplyRefusal)>
        ensures { ReplyPost result self.old reply self.new }
    {
        match self.give_lent(&reply) {
            Ok(given) => Ok(given),
            Err(why) => Err((reply, why)),
        }
    }

    /// As `give_reply`, with a reply that is lent, and so not handed back.
    #[inline(always)]
    pub(crate) fn give_lent(&mut self, reply: &Reply) -> Result<Given, ReplyRefusal>
        ensures { ReplyPost (handed_back reply.now result) self.old reply.now self.new }
    {
        if let Some(why) = self.reply_refusal(reply) {
            return Err(why);
        }
        match self.requests.first_taken() {
            Some(request) => match request.guess {
                Some(id) => Ok(self.decide(id, reply)),
                None => self.answer(reply),
            },
            None => unreachable!(),
        }
    }

    /// The guess of the oldest taken request is decided by the reply to it, or was struck before.
    #[inline(always)]
    fn decide(&mut self, id: GuessId, reply: &Reply) -> Given
        requires fits { reply_refused self.old reply.now self.old.taken ≡ None }
        requires guess { first_guess self.old.taken ≡ Some id }
        ensures told { result ≡ given_answer self.old reply.now self.old.taken }
        ensures left { self.new ≡ given self.old reply.now self.old.taken }
    {
        let Some(request) = self.requests.pop_taken() else {
            unreachable!();
        };
        let outcome = decide_guess(&mut self.holder, id, &reply.answer);
        if let Some(Outcome::Done) = outcome {
            keep(
                &mut self.kept,
                request.process,
                answer_kept(&request, &reply.answer),
            );
            return decided(id, &reply.answer);
        }
        Given::Gone(id)
    }

    /// The step of the oldest taken request, which was asked, is taken with the reply to it, if the reply still
    /// counts.
    fn answer(&mut self, reply: &Reply) -> Result<Given, ReplyRefusal>
        requires fits { reply_refused self.old reply.now self.old.taken ≡ None }
        requires asked { first_guess self.old.taken ≡ None }
        ensures { ReplyPost (handed_back reply.now result) self.old reply.now self.new }
    {
        let Some(request) = self.requests.first_taken() else {
            unreachable!();
        };
        let (number, process) = (request.number, request.process);
        let input = match input_of(&reply.answer) {
            Some(input) if !is_void(self.holder.kernel(), request) => input,
            _ => {
                self.requests.pop_taken();
                return Ok(Given::Forgotten(number));
            }
        };
        if let Err(Refusal::Memory) = self.holder.step(process, input) {
            return Err(ReplyRefusal::Memory);
        }
        self.requests.pop_taken();
        Ok(Given::Taken(number))
    }

    /// Begins a new epoch of the kernel where no request is pending: the trace, and what terminals have released,
    /// are handed out, and kept answers are forgotten. Numbers of requests go on: `first` is the next one. Refusals:
    /// `Undecided` with the number of pending requests, then `Memory`; nothing has changed.
    pub fn new_epoch(&mut self) -> Result<(Trace, Texts), EpochRefusal>
        ensures { DeskEpochPost result self.old self.new }
    {
        let count = self.pending();
        if count > 0 {
            return Err(EpochRefusal::Undecided(count));
        }
        let left = self.holder.new_epoch()?;
        self.kept.clear();
        self.first = self.next;
        Ok(left)
    }

    /// Ends a desk of which no request is pending: its trace, and what its terminals have released. Refused
    /// where requests are pending. This takes no memory.
    pub fn shut(self) -> Result<(Trace, Texts), (Desk, Pending)>
        ensures { ShutPost result self }
    {
        let count = self.pending();
        if count > 0 {
            return Err((self, Pending(count)));
        }
        let Desk {
            holder,
            alloc: _,
            requests: _,
            first: _,
            next: _,
            kept: _,
        } = self;
        Ok(holder.shut())
    }

    /// Fails the guess of each pending request, the oldest first, and ends. This takes no memory.
    pub fn abandon(self) {
        let Desk {
            holder,
            alloc: _,
            requests: _,
            first: _,
            next: _,
            kept: _,
        } = self;
        holder.abandon();
    }
}

/// What a decision by this answer comes to.
fn decided(id: GuessId, answer: &Answer) -> Given
    ensures { result ≡ decision_answer id answer.now }
{
    match answer {
        Answer::Yes => Given::Committed(id),
        _ => Given::Failed(id),
    }
}
