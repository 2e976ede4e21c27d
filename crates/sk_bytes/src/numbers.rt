//! Numbers for the keys of a step, and what becomes of them behind it.
ghost use Rattle.std.specs.Prelude.{◌≡◌, ◌∷◌, ◌++◌, ◌<◌, ℕ, true, [], None, Some, is_none, length, map, IfOk, OnErr, OnOk};
ghost use Rattle.sk_bytes.specs.Base.{list_any, nat_cmp, vec_capacity, vec_items, vec_len, is_in, at_key, keys_of};
ghost use Rattle.sk_bytes.specs.Base.{look_at, log_at, number_of, string_of};
ghost use Rattle.sk_bytes.specs.Told.{slot_shown, AllRest, IsTwoWay};
ghost use Rattle.sk_bytes.specs.Numbers.{exchanged, listed, names, AreNames, Gains, LetsGo, ListsAbsent};

use crate::ByteStep;
use sk_ids::GuessId;
use sk_index::{Index, Number};
use sk_speculator::{Speculator, Step};
use std::alloc::{AllocError, Global};
use std::mem;

/// Whether a key is absent and depends on nothing.
fn is_bare<V, O>(kernel: &Speculator<Number, V, O>, number: Number) -> bool
    requires { AllRest (log_at nat_cmp kernel.now.slots number) }
    ensures { result ≡ is_none (slot_shown kernel.now.slots number) }
{
    kernel.value(&number).is_none() && kernel.tags_of(&number).ids().is_empty()
}

/// Gives a number back whose key is absent and depends on nothing. This takes no memory.
fn give_back<V, O>(index: &mut Index, kernel: &Speculator<Number, V, O>, number: Number)
    requires two_way { IsTwoWay index.old }
    requires rests { AllRest (log_at nat_cmp kernel.now.slots number) }
    ensures { LetsGo index.old (is_in nat_cmp (number ∷ [])) kernel.now.slots index.new }
{
    if is_bare(kernel, number) {
        index.remove(number);
    }
}

/// Gives those of these numbers back whose keys are absent and depend on nothing.
pub(crate) fn give_back_all<V, O>(
    index: &mut Index,
    kernel: &Speculator<Number, V, O>,
    numbers: &[Number],
)
    requires two_way { IsTwoWay index.old }
    requires rests { (n : ℕ) → AllRest (log_at nat_cmp kernel.now.slots n) }
    ensures { LetsGo index.old (is_in nat_cmp numbers.now) kernel.now.slots index.new }
{
    for number in numbers {
        give_back(index, kernel, *number);
    }
}

/// Gives each number back whose key is absent and depends on nothing, where there is no memory for a list of them.
fn give_back_unused<V, O>(index: &mut Index, kernel: &Speculator<Number, V, O>)
    requires two_way { IsTwoWay index.old }
    requires rests { (n : ℕ) → AllRest (log_at nat_cmp kernel.now.slots n) }
    ensures { LetsGo index.old (λ n. true) kernel.now.slots index.new }
{
    for place in 0..index.places() {
        give_back(index, kernel, Number::new(place));
    }
}

/// Gives numbers back whose keys are absent and depend on nothing: these, or where there was no memory for them, all.
pub(crate) fn give_back_any<V, O>(
    index: &mut Index,
    kernel: &Speculator<Number, V, O>,
    numbers: Result<Vec<Number>, AllocError>,
)
    requires two_way { IsTwoWay index.old }
    requires rests { (n : ℕ) → AllRest (log_at nat_cmp kernel.now.slots n) }
    ensures { LetsGo index.old (listed numbers) kernel.now.slots index.new }
{
    match numbers {
        Ok(numbers) => give_back_all(index, kernel, numbers.as_slice()),
        Err(AllocError) => give_back_unused(index, kernel),
    }
}

/// Adds a number to a list, where its key is absent.
fn push_absent<V, O>(
    absent: &mut Vec<Number>,
    kernel: &Speculator<Number, V, O>,
    number: Number,
) -> Result<(), AllocError>
    ensures kept { OnOk result ((n : ℕ) → is_in nat_cmp absent.old.items n ≡ true
        → is_in nat_cmp absent.new.items n ≡ true) }
    ensures added { OnOk result (look_at nat_cmp kernel.now.slots number ≡ None
        → is_in nat_cmp absent.new.items number ≡ true) }
{
    if kernel.value(&number).is_none() {
        absent.push(number)?;
    }
    Ok(())
}

/// The absent keys that depend on a guess: those whose numbers its commit may set free.
pub(crate) fn absent_dependents<V, O>(
    kernel: &Speculator<Number, V, O>,
    alloc: Global,
    id: GuessId,
) -> Result<Vec<Number>, AllocError>
    ensures { IfOk result (λ absent. ListsAbsent kernel.now.slots id absent.items) }
{
    let mut absent = Vec::new(alloc);
    for number in kernel.dependents(id) {
        push_absent(&mut absent, kernel, *number)?;
    }
    Ok(absent)
}

/// The number of a key, which it is given where it has none.
fn number_for(index: &mut Index, key: &[u8]) -> Result<Number, AllocError>
    requires { IsTwoWay index.old }
    ensures ok { IfOk result (λ n. number_of index.new key.now ≡ Some n) }
    ensures more { IfOk result (λ n. Gains index.old (n ∷ []) index.new) }
    ensures err { OnErr result (index.new ≡ index.old) }
{
    match index.find(key) {
        Some(number) => Ok(number),
        None => index.add(key),
    }
}

/// Numbers for what a step writes, without the values. Those that were given are among the loose ones, also where memory ends.
fn number_written<V>(
    index: &mut Index,
    written: &[(Vec<u8>, Option<V>)],
    numbered: &mut Vec<(Number, Option<V>)>,
    loose: &mut Vec<Number>,
) -> Result<(), AllocError>
    requires two_way { IsTwoWay index.old }
    requires numbered { numbered.old.items ≡ [] }
    requires loose { loose.old.items ≡ [] }
    ensures gains { Gains index.old loose.new.items index.new }
    ensures ok { OnOk result
        (AreNames (number_of index.new) (map (λ w. vec_items w.0) written.now)
        (names numbered.new.items)) }
    ensures loose { OnOk result (loose.new.items ≡ names numbered.new.items) }
{
    for write in written {
        loose.reserve(1)?;
        numbered.reserve(1)?;
        let number = number_for(index, write.0.as_slice())?;
        loose.push_reserved(number);
        numbered.push_reserved((number, None));
    }
    Ok(())
}

/// Adds a number to a list, where there is one.
fn push_found(numbered: &mut Vec<Number>, found: Option<Number>)
    requires { vec_len numbered.old < vec_capacity numbered.old }
    ensures { numbered.new.items ≡ numbered.old.items ++ at_key [] (λ n. n ∷ []) found }
{
    if let Some(number) = found {
        numbered.push_reserved(number);
    }
}

/// Whether a key has a number.
fn is_numbered(index: &Index, number: Number, key: &[u8]) -> bool
    ensures { result ≡ true → string_of index.now number ≡ Some key.now }
{
    match index.string(number) {
        Some(own) => own == key,
        None => false,
    }
}

/// The number of a key that a step looked at. Mostly it is the one that the step writes in this turn.
fn find_looked<V>(
    index: &Index,
    written: Option<&(Number, Option<V>)>,
    key: &[u8],
) -> Option<Number>
    requires { IsTwoWay index.now }
    ensures { result ≡ number_of index.now key.now }
{
    if let Some(write) = written {
        if is_numbered(index, write.0, key) {
            return Some(write.0);
        }
    }
    index.find(key)
}

/// The numbers of the keys that a step looked at. One that has none is absent and depends on nothing.
fn number_looked<V>(
    index: &Index,
    looked: &[Vec<u8>],
    written: &[(Number, Option<V>)],
    numbered: &mut Vec<Number>,
) -> Result<(), AllocError>
    requires two_way { IsTwoWay index.now }
    requires numbered { numbered.old.items ≡ [] }
    ensures { OnOk result
        (numbered.new.items ≡ keys_of (number_of index.now) (map vec_items looked.now)) }
{
    let mut near = written.iter();
    for key in looked {
        numbered.reserve(1)?;
        push_found(numbered, find_looked(index, near.next(), key.as_slice()));
    }
    Ok(())
}

/// Numbers for the keys of a step, without its values. Those that were given are among the loose ones, also where memory ends.
pub(crate) fn number_step<V, O>(
    index: &mut Index,
    step: &ByteStep<V, O>,
    numbered: &mut Step<Number, V, O>,
    loose: &mut Vec<Number>,
) -> Result<(), AllocError>
    requires two_way { IsTwoWay index.old }
    requires looked { numbered.old.looked.items ≡ [] }
    requires written { numbered.old.written.items ≡ [] }
    requires loose { loose.old.items ≡ [] }
    ensures gains { Gains index.old loose.new.items index.new }
    ensures looked { OnOk result
        (numbered.new.looked.items
        ≡ keys_of (number_of index.new) (map vec_items step.now.looked.items)) }
    ensures written { OnOk result
        (AreNames (number_of index.new) (map (λ w. vec_items w.0) step.now.written.items)
        (names numbered.new.written.items)) }
    ensures loose { OnOk result (loose.new.items ≡ names numbered.new.written.items) }
    ensures said { numbered.new.said ≡ numbered.old.said }
{
    number_written(index, step.written.as_slice(), &mut numbered.written, loose)?;
    number_looked(
        index,
        step.looked.as_slice(),
        numbered.written.as_slice(),
        &mut numbered.looked,
    )
}

/// Whether a write makes its key absent.
pub(crate) fn makes_absent<V>(written: &[(Number, Option<V>)]) -> bool
    ensures { result ≡ list_any (λ w. is_none w.1) written.now }
{
    for write in written {
        if write.1.is_none() {
            return true;
        }
    }
    false
}

/// Exchanges what two have behind their names.
fn exchange_one<A, B, V>(left: &mut (A, V), right: &mut (B, V))
    ensures left { left.new ≡ (left.old.0, right.old.1) }
    ensures right { right.new ≡ (right.old.0, left.old.1) }
{
    mem::swap(&mut left.1, &mut right.1);
}

/// Exchanges what stands behind names, place by place.
pub(crate) fn exchange<A, B, V>(left: &mut Vec<(A, V)>, right: &mut Vec<(B, V)>)
    requires { length left.old.items ≡ length right.old.items }
    ensures left { left.new.items ≡ exchanged left.old.items right.old.items }
    ensures right { right.new.items ≡ exchanged right.old.items left.old.items }
    ensures left_room { vec_capacity left.new ≡ vec_capacity left.old }
    ensures right_room { vec_capacity right.new ≡ vec_capacity right.old }
{
    for place in 0..left.len() {
        exchange_one(&mut left[place], &mut right[place]);
    }
}
