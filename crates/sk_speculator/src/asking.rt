//! What a step asks for before it is taken, so that nothing can be refused then, and its taking.
ghost use Rattle.std.specs.Prelude.{◌≡◌, ◌||◌, ℕ, true, false, [], None, Some, is_some, length, IfSome, OnErr, OnOk};
ghost use Rattle.sk_speculator.specs.Base.{IsStrictlySortedBy, nat_cmp, tags_by, with_tags, AllExact, Covers, keys_of};
ghost use Rattle.sk_speculator.specs.Base.{HasKeptRoom, opens_of, is_in, is_marked, HasRoom, has, look_at, log_at};
ghost use Rattle.sk_speculator.specs.Base.{AllSettled, IsReady, SettledBut, found, written_value};
ghost use Rattle.sk_speculator.specs.Parts.{any_rests, first_tags, made_by, says, GoesOn, Performed};
ghost use Rattle.sk_speculator.specs.Emptied.{IsEmptied};

use crate::Step;
use crate::lists::{depend_all, relieve_written};
use crate::writes::{
    add_tags, add_written_tags, are_within, first_tags, go_unnoted, prepare_all, settle_all,
    settle_rest, write_all, write_all_on,
};
use sk_guesses::OpenGuesses;
use sk_ids::{GuessId, TagSet};
use sk_inversion::Inversion;
use sk_map::Key;
use sk_outputs::Outputs;
use sk_slots::Slots;
use std::alloc::{AllocError, Global};
use std::hash::Hash;
use std::mem;

/// The guesses that a step depends on, and the same again for the guess that it draws; none where it draws none.
#[derive(Drop)]
pub(crate) struct StepTags {
    pub tags: TagSet,
    pub own: TagSet,
}

/// The set of a step's own guess.
#[inline(always)]
fn own_tags(alloc: Global, own: &Option<GuessId>) -> TagSet
    ensures { (g : ℕ) → has g result ≡ is_marked own.now g }
{
    match own {
        Some(id) => TagSet::of(alloc, *id),
        None => TagSet::new(alloc),
    }
}

impl StepTags {
    /// Those of a step that touches nothing and draws no guess.
    pub(crate) fn new(alloc: Global) -> StepTags {
        StepTags {
            tags: TagSet::new(alloc),
            own: TagSet::new(alloc),
        }
    }
}

/// The guesses that a step depends on: those of all keys that it touches, and its own.
#[inline(always)]
fn tags_of_step<K: Key + Hash, V, O, I: Inversion<V>>(
    alloc: Global,
    slots: &Slots<K, V, I>,
    both: &mut StepTags,
    places: &[usize],
    own: &Option<GuessId>,
    step: &Step<K, V, O, I>,
) -> Result<(), AllocError>
    ensures members { OnOk result ((g : ℕ) → has g both.new.tags
        ≡ ((is_marked own.now g || any_rests K.order slots.now g step.now.looked.items)
        || any_rests K.order slots.now g (keys_of step.now.written.items))) }
    ensures rising { OnOk result (IsStrictlySortedBy nat_cmp both.new.tags) }
    ensures own { OnOk result (is_some own.now ≡ true → both.new.own ≡ both.new.tags) }
{
    both.tags = own_tags(alloc, own);
    let looked = step.looked.as_slice();
    add_tags(slots, &mut both.tags, looked, places)?;
    add_written_tags(
        slots,
        &mut both.tags,
        looked,
        step.written.as_slice(),
        places,
    )?;
    let _rising = both.tags.ids();
    if own.is_some() {
        both.own = both.tags.copy()?;
    }
    Ok(())
}

/// Makes room for the output of a step.
#[inline(always)]
fn reserve_output<O: Drop>(
    said: &mut Outputs<O>,
    output: &Option<(u16, O)>,
) -> Result<(), AllocError>
    ensures same { said.new.said ≡ said.old.said }
    ensures ok { OnOk result (IfSome output.now (λ w. HasRoom said.new w.0)) }
{
    match output {
        Some((to, _)) => said.reserve(*to),
        None => Ok(()),
    }
}

/// Makes room for the guess of a step.
#[inline(always)]
fn reserve_guess<K: Key>(
    guesses: &mut OpenGuesses<K>,
    own: &Option<GuessId>,
    count: usize,
) -> Result<(), AllocError>
    ensures view { guesses.new.view ≡ guesses.old.view }
    ensures opens { guesses.new.opens ≡ guesses.old.opens }
    ensures ok { OnOk result (is_some own.now ≡ true → HasKeptRoom guesses.new count) }
{
    if own.is_some() {
        guesses.reserve(count)?;
    }
    Ok(())
}

/// Makes room for the notes of writes, adds their keys to the lists of the guesses that they come to depend on, if they are not
/// all there already, and makes room for the guess of the step. Without memory the lists have what they had.
#[inline(always)]
fn make_ready<K: Key + Hash, V: Drop, I: Inversion<V>>(
    alloc: Global,
    slots: &mut Slots<K, V, I>,
    guesses: &mut OpenGuesses<K>,
    no_tags: &TagSet,
    own: &Option<GuessId>,
    tags: &TagSet,
    written: &[(K, I::Write)],
    places: &[usize],
) -> Result<(), AllocError>
    requires exact { AllExact K.order (tags_by (log_at K.order slots.old)) guesses.old.opens }
    requires covers { Covers K.order tags.now (keys_of written.now)
        (tags_by (log_at K.order slots.old)) }
    requires no_tags { no_tags.now ≡ [] }
    ensures look { (q : K) → look_at K.order slots.new q ≡ look_at K.order slots.old q }
    ensures log { (q : K) → log_at K.order slots.new q ≡ log_at K.order slots.old q }
    ensures settled { SettledBut K.order (keys_of written.now) slots.old
        → SettledBut K.order (keys_of written.now) slots.new }
    ensures view { guesses.new.view ≡ guesses.old.view }
    ensures opens { opens_of guesses.new.opens ≡ opens_of guesses.old.opens }
    ensures ready { OnOk result ((q : K) → is_in K.order (keys_of written.now) q ≡ true
        → IsReady K.order tags.now slots.new q) }
    ensures places { OnOk result (is_some own.now ≡ true
        → HasKeptRoom guesses.new (length written.now)) }
    ensures ok { OnOk result
        (AllExact K.order
        (with_tags K.order tags.now (keys_of written.now) (tags_by (log_at K.order slots.old)))
        guesses.new.opens) }
    ensures err { OnErr result
        (AllExact K.order (tags_by (log_at K.order slots.old)) guesses.new.opens) }
{
    let same = prepare_all(slots, tags, written, places)?;
    depend_all(alloc, guesses, slots, no_tags, tags, written, places, same)?;
    if reserve_guess(guesses, own, written.len()).is_err() {
        relieve_written(guesses, slots, no_tags, written);
        return Err(AllocError);
    }
    Ok(())
}

/// Finds the guesses that a step depends on, and makes all room that it wants. Nothing that is seen changes. Without memory no
/// room stays but what is free for all.
#[inline(always)]
pub(crate) fn ask<K: Key + Hash, V: Drop, O: Drop, I: Inversion<V>>(
    alloc: Global,
    slots: &mut Slots<K, V, I>,
    guesses: &mut OpenGuesses<K>,
    said: &mut Outputs<O>,
    places: &[usize],
    no_tags: &TagSet,
    own: &Option<GuessId>,
    both: &mut StepTags,
    step: &Step<K, V, O, I>,
) -> Result<(), AllocError>
    requires settled { AllSettled K.order slots.old }
    requires exact { AllExact K.order (tags_by (log_at K.order slots.old)) guesses.old.opens }
    requires no_tags { no_tags.now ≡ [] }
    ensures look { (q : K) → look_at K.order slots.new q ≡ look_at K.order slots.old q }
    ensures log { (q : K) → log_at K.order slots.new q ≡ log_at K.order slots.old q }
    ensures view { guesses.new.view ≡ guesses.old.view }
    ensures opens { opens_of guesses.new.opens ≡ opens_of guesses.old.opens }
    ensures said { said.new.said ≡ said.old.said }
    ensures settled { OnErr result (AllSettled K.order slots.new) }
    ensures lists { OnErr result
        (AllExact K.order (tags_by (log_at K.order slots.old)) guesses.new.opens) }
    ensures members { OnOk result ((g : ℕ) → has g both.new.tags
        ≡ ((is_marked own.now g || any_rests K.order slots.old g step.now.looked.items)
        || any_rests K.order slots.old g (keys_of step.now.written.items))) }
    ensures rising { OnOk result (IsStrictlySortedBy nat_cmp both.new.tags) }
    ensures own { OnOk result (is_some own.now ≡ true → both.new.own ≡ both.new.tags) }
    ensures unsettled { OnOk result
        (SettledBut K.order (keys_of step.now.written.items) slots.new) }
    ensures ready { OnOk result ((q : K) → is_in K.order (keys_of step.now.written.items) q ≡ true
        → IsReady K.order both.new.tags slots.new q) }
    ensures exact { OnOk result
        (AllExact K.order
        (with_tags K.order both.new.tags (keys_of step.now.written.items)
        (tags_by (log_at K.order slots.old))) guesses.new.opens) }
    ensures places { OnOk result (is_some own.now ≡ true
        → HasKeptRoom guesses.new (length step.now.written.items)) }
    ensures room { OnOk result (IfSome step.now.said (λ w. HasRoom said.new w.0)) }
{
    let written = step.written.as_slice();
    tags_of_step(alloc, slots, both, places, own, step)?;
    reserve_output(said, &step.said)?;
    if make_ready(
        alloc, slots, guesses, no_tags, own, &both.tags, written, places,
    )
    .is_err()
    {
        settle_all(slots, written);
        return Err(AllocError);
    }
    Ok(())
}

/// Makes the writes of a step, for which all is ready, and says its output. The step's buffers are empty then, with their
/// room. It takes no memory.
#[inline(always)]
pub(crate) fn perform<K: Key + Hash, V: Drop, O: Drop, I: Inversion<V>>(
    slots: &mut Slots<K, V, I>,
    said: &mut Outputs<O>,
    tags: TagSet,
    places: &[usize],
    step: &mut Step<K, V, O, I>,
)
where
    I::Write: Drop,
    requires ready { (q : K) → is_in K.order (keys_of step.old.written.items) q ≡ true
        → IsReady K.order tags slots.old q }
    requires clean { (q : K) → is_in K.order (keys_of step.old.written.items) q ≡ true → tags ≡ []
        → log_at K.order slots.old q ≡ [] }
    requires unsettled { SettledBut K.order (keys_of step.old.written.items) slots.old }
    requires room { IfSome step.old.said (λ w. HasRoom said.old w.0) }
    ensures writes { Performed K.order slots.old tags
        (made_by K.order I.written (look_at K.order slots.old) step.old.written.items) slots.new }
    ensures settled { AllSettled K.order slots.new }
    ensures says { said.new.said ≡ says step.old.said tags said.old.said }
    ensures emptied { IsEmptied step.old step.new }
{
    let written = step.written.as_mut_slice();
    let done = write_all(slots, &tags, written, places);
    settle_rest(slots, written, done);
    step.looked.clear();
    step.written.clear();
    if let Some((to, output)) = mem::replace(&mut step.said, None) {
        said.say(to, output, tags);
    }
}

/// Makes all room that a step wants whose keys depend on nothing. Nothing that is seen changes.
fn ask_alone<K: Key + Hash, V: Drop, O: Drop, I: Inversion<V>>(
    slots: &mut Slots<K, V, I>,
    said: &mut Outputs<O>,
    places: &[usize],
    no_tags: &TagSet,
    step: &Step<K, V, O, I>,
) -> Result<(), AllocError>
    ensures look { (q : K) → look_at K.order slots.new q ≡ look_at K.order slots.old q }
    ensures log { (q : K) → log_at K.order slots.new q ≡ log_at K.order slots.old q }
    ensures settled { SettledBut K.order (keys_of step.now.written.items) slots.old
        → SettledBut K.order (keys_of step.now.written.items) slots.new }
    ensures said { said.new.said ≡ said.old.said }
    ensures ready { OnOk result ((q : K)
        → is_in K.order (keys_of step.now.written.items) q ≡ true
        → IsReady K.order no_tags.now slots.new q) }
    ensures room { OnOk result (IfSome step.now.said (λ w. HasRoom said.new w.0)) }
{
    let written = step.written.as_slice();
    reserve_output(said, &step.said)?;
    prepare_all(slots, no_tags, written, places)?;
    Ok(())
}

/// Takes a step whose keys depend on nothing: it wants no tags and no notes. Without memory nothing that is seen has changed.
pub(crate) fn perform_alone<K: Key + Hash, V: Drop, O: Drop, I: Inversion<V>>(
    alloc: Global,
    slots: &mut Slots<K, V, I>,
    said: &mut Outputs<O>,
    places: &[usize],
    no_tags: &TagSet,
    step: &mut Step<K, V, O, I>,
) -> Result<(), AllocError>
where
    I::Write: Drop,
    requires settled { AllSettled K.order slots.old }
    requires no_tags { no_tags.now ≡ [] }
    requires clean { (q : K) → is_in K.order (keys_of step.old.written.items) q ≡ true
        → log_at K.order slots.old q ≡ [] }
    ensures settled { AllSettled K.order slots.new }
    ensures look { OnErr result
        ((q : K) → look_at K.order slots.new q ≡ look_at K.order slots.old q) }
    ensures log { OnErr result
        ((q : K) → log_at K.order slots.new q ≡ log_at K.order slots.old q) }
    ensures said { OnErr result (said.new.said ≡ said.old.said) }
    ensures kept { OnErr result (step.new ≡ step.old) }
    ensures writes { OnOk result
        (Performed K.order slots.old []
        (made_by K.order I.written (look_at K.order slots.old) step.old.written.items) slots.new) }
    ensures says { OnOk result (said.new.said ≡ says step.old.said [] said.old.said) }
    ensures emptied { OnOk result (IsEmptied step.old step.new) }
{
    if ask_alone(slots, said, places, no_tags, step).is_err() {
        let refused = step.written.as_slice();
        settle_all(slots, refused);
        return Err(AllocError);
    }
    let none = TagSet::new(alloc);
    perform(slots, said, none, places, step);
    Ok(())
}

/// Whether a step goes on where its keys stand. Where no guess is undecided none of them depends on any.
#[inline(always)]
pub(crate) fn goes_on<K: Key + Hash, V, O, I: Inversion<V>>(
    slots: &Slots<K, V, I>,
    no_tags: &TagSet,
    places: &[usize],
    step: &Step<K, V, O, I>,
    idle: bool,
) -> bool
    requires no_tags { no_tags.now ≡ [] }
    requires idle { idle ≡ true → (g : ℕ)
        → any_rests K.order slots.now g step.now.looked.items ≡ false }
    ensures { result ≡ true
        → GoesOn K.order slots.now step.now.looked.items (keys_of step.now.written.items) }
{
    let written = step.written.as_slice();
    let tags = first_tags(slots, no_tags, written, places);
    if !go_unnoted(slots, tags, written, places) {
        return false;
    }
    idle || are_within(slots, tags, step.looked.as_slice(), written)
}

/// Says an output with a copy of these tags.
#[inline(never)]
fn say_copied<O: Drop>(
    said: &mut Outputs<O>,
    tags: &TagSet,
    output: &mut Option<(u16, O)>,
) -> Result<(), AllocError>
    ensures ok { OnOk result (said.new.said ≡ says output.old tags.now said.old.said) }
    ensures none { OnOk result (output.new ≡ None) }
    ensures err { OnErr result (said.new.said ≡ said.old.said) }
    ensures kept { OnErr result (output.new ≡ output.old) }
{
    reserve_output(said, output)?;
    let own = tags.copy()?;
    if let Some((to, output)) = mem::replace(output, None) {
        said.say(to, output, own);
    }
    Ok(())
}

/// As `say_copied`; most steps say nothing.
#[inline(always)]
fn say_on<O: Drop>(
    said: &mut Outputs<O>,
    tags: &TagSet,
    output: &mut Option<(u16, O)>,
) -> Result<(), AllocError>
    ensures ok { OnOk result (said.new.said ≡ says output.old tags.now said.old.said) }
    ensures none { OnOk result (output.new ≡ None) }
    ensures err { OnErr result (said.new.said ≡ said.old.said) }
    ensures kept { OnErr result (output.new ≡ output.old) }
{
    match output {
        None => Ok(()),
        Some(_) => say_copied(said, tags, output),
    }
}

/// Takes a step that goes on where its keys stand: it wants no tags but for its output, no notes, and its keys are in all lists
/// already. Without memory nothing has changed.
#[inline(always)]
pub(crate) fn perform_on<K: Key + Hash, V: Drop, O: Drop, I: Inversion<V>>(
    slots: &mut Slots<K, V, I>,
    said: &mut Outputs<O>,
    no_tags: &TagSet,
    places: &[usize],
    step: &mut Step<K, V, O, I>,
) -> Result<(), AllocError>
where
    I::Write: Drop,
    requires settled { AllSettled K.order slots.old }
    requires no_tags { no_tags.now ≡ [] }
    requires slots { (q : K) → is_in K.order (keys_of step.old.written.items) q ≡ true
        → is_some (found K.order slots.old q) ≡ true }
    ensures rising { IsStrictlySortedBy nat_cmp
        (first_tags K.order slots.old (keys_of step.old.written.items)) }
    ensures settled { AllSettled K.order slots.new }
    ensures look { OnOk result ((q : K) → look_at K.order slots.new q
        ≡ written_value K.order
        (made_by K.order I.written (look_at K.order slots.old) step.old.written.items) q
        (look_at K.order slots.old q)) }
    ensures log { (q : K) → log_at K.order slots.new q ≡ log_at K.order slots.old q }
    ensures says { OnOk result (said.new.said ≡ says step.old.said
        (first_tags K.order slots.old (keys_of step.old.written.items)) said.old.said) }
    ensures emptied { OnOk result (IsEmptied step.old step.new) }
    ensures slots { OnErr result (slots.new ≡ slots.old) }
    ensures said { OnErr result (said.new.said ≡ said.old.said) }
    ensures kept { OnErr result (step.new ≡ step.old) }
{
    let tags = first_tags(slots, no_tags, step.written.as_slice(), places);
    let _rising = tags.ids();
    say_on(said, tags, &mut step.said)?;
    let written = step.written.as_mut_slice();
    let done = write_all_on(slots, written, places);
    settle_rest(slots, written, done);
    step.looked.clear();
    step.written.clear();
    Ok(())
}
