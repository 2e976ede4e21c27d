//! The line of an entity, made from its end on in a room and written at once, without formatting machinery.
ghost use Rattle.std.specs.Prelude.{◌≡◌, ◌≢◌, ◌<◌, ◌≤◌, ◌+◌, ◌∷◌, [], ◌++◌, codes, drop, length, decimal, IfSome};
ghost use Rattle.sk_report.specs.Base.{ROOM, VALUE, REGISTERS, LITERAL, MADE, HELD, held, val_word, spelled};
ghost use Rattle.sk_report.specs.Base.{object_word, pid_word, DIGITS, LEVELS, OBJECT};
ghost use Rattle.sk_report.specs.Printed.{option_text, registers_text, yes_or_no, held_text, made_text, process_text, joined, value_text, entity_text};

use crate::placed::{
    DIGITS, LEVELS, OBJECT, put_literal, put_number, put_object, put_pid, put_signed, put_words,
};
use crate::printed::value_of;
use sk_ids::{Entity, Pid};
use sk_objects::{File, Signals, Value};
use sk_script::{Process, Registers, Val};

/// The places of what a register holds.
const VALUE: usize = OBJECT + 1;

/// The places of the eight registers, with a space between two.
const REGISTERS: usize = 8 * (VALUE + 1);

/// The places of a text of 512 bytes that stand for themselves, between quotes.
const LITERAL: usize = 514;

/// The places of what a process has made.
const MADE: usize = 4 * DIGITS + 43;

/// The places of what an entity has.
const HELD: usize = REGISTERS + DIGITS + LITERAL + MADE + 16;

/// The room for a line: what its entity has, the entity, and what stands at the end.
pub(crate) const ROOM: usize = HELD + OBJECT + 32;

/// Puts what a register holds in a line, before a place, and returns where it starts.
fn put_held(val: Val, line: &mut [u8], end: usize) -> usize
    requires { (VALUE ≤ end) × (end ≤ length line.old) }
    ensures line { drop result line.new ≡ val_word val ++ drop end line.old }
    ensures start { (result ≤ end) × (end ≤ result + VALUE) }
    ensures length { length line.new ≡ length line.old }
{
    match val {
        Val::Num(number) => put_signed(number, line, end),
        Val::Obj(object) => put_object(object, b"", line, end),
        Val::Who(pid) => {
            let start = put_pid(pid, b"", line, end);
            put_words(b"@", line, start)
        }
    }
}

/// Puts what the register of a number holds, and words behind it, in a line before a place, and returns where they start. Most
/// hold one digit.
#[inline(always)]
fn put_val(registers: &Registers, register: u8, words: &[u8], line: &mut [u8], end: usize) -> usize
    requires place { (VALUE + length words.now ≤ end) × (end ≤ length line.old) }
    requires register { register < 8 }
    ensures line { drop result line.new
        ≡ val_word (held registers.now register) ++ words.now ++ drop end line.old }
    ensures start { (result ≤ end) × (end ≤ result + VALUE + length words.now) }
    ensures length { length line.new ≡ length line.old }
{
    let behind = put_words(words, line, end);
    match value_of(registers, register) {
        Val::Num(number @ 0..=9) => put_number(number as u64, b"", line, behind),
        _ => put_held(value_of(registers, register), line, behind),
    }
}

/// Puts the eight registers, with single spaces between, and words behind them.
#[tactic(auto, unfolding(crate::specs::Printed::registers_text))]
fn put_registers(registers: &Registers, words: &[u8], line: &mut [u8], end: usize) -> usize
    requires { (REGISTERS + length words.now ≤ end) × (end ≤ length line.old) }
    ensures line { drop result line.new ≡ registers_text registers.now ++ words.now ++ drop end line.old }
    ensures start { (result ≤ end) × (end ≤ result + REGISTERS + length words.now) }
    ensures length { length line.new ≡ length line.old }
{
    let start = put_val(registers, 7, words, line, end);
    let start = put_val(registers, 6, b" ", line, start);
    let start = put_val(registers, 5, b" ", line, start);
    let start = put_val(registers, 4, b" ", line, start);
    let start = put_val(registers, 3, b" ", line, start);
    let start = put_val(registers, 2, b" ", line, start);
    let start = put_val(registers, 1, b" ", line, start);
    put_val(registers, 0, b" ", line, start)
}

/// Puts a number, or `-` for none, and words behind it.
#[inline(always)]
fn put_option(number: Option<u32>, words: &[u8], line: &mut [u8], end: usize) -> usize
    requires { (DIGITS + length words.now ≤ end) × (end ≤ length line.old) }
    ensures line { drop result line.new ≡ option_text number ++ words.now ++ drop end line.old }
    ensures start { (result ≤ end) × (end ≤ result + DIGITS + length words.now) }
    ensures length { length line.new ≡ length line.old }
{
    match number {
        Some(number) => put_number(u64::from(number), words, line, end),
        None => {
            let start = put_words(words, line, end);
            put_words(b"-", line, start)
        }
    }
}

/// Puts `yes` or `no`, and words behind it.
#[inline(always)]
fn put_yes_or_no(yes: bool, words: &[u8], line: &mut [u8], end: usize) -> usize
    requires { (3 + length words.now ≤ end) × (end ≤ length line.old) }
    ensures line { drop result line.new ≡ yes_or_no yes ++ words.now ++ drop end line.old }
    ensures start { (result ≤ end) × (end ≤ result + 3 + length words.now) }
    ensures length { length line.new ≡ length line.old }
{
    let start = put_words(words, line, end);
    if yes {
        put_words(b"yes", line, start)
    } else {
        put_words(b"no", line, start)
    }
}

/// Puts what a process has made, its handler, and whether it has ended, and words behind that.
#[tactic(auto, unfolding(crate::specs::Printed::made_text))]
fn put_made(process: &Process, words: &[u8], line: &mut [u8], end: usize) -> usize
    requires { (MADE + length words.now ≤ end) × (end ≤ length line.old) }
    ensures line { drop result line.new ≡ made_text process.now ++ words.now ++ drop end line.old }
    ensures start { (result ≤ end) × (end ≤ result + MADE + length words.now) }
    ensures length { length line.new ≡ length line.old }
{
    let start = put_yes_or_no(process.ended, words, line, end);
    let start = put_option(process.saved, b" ended ", line, start);
    let start = put_option(process.handler, b" saved ", line, start);
    let start = put_number(u64::from(process.objects), b" handler ", line, start);
    let start = put_number(u64::from(process.children), b" objs ", line, start);
    put_words(b"kids ", line, start)
}

/// Puts where a process stands and its registers, and words behind these.
fn put_place(process: &Process, words: &[u8], line: &mut [u8], end: usize) -> usize
    requires { (REGISTERS + DIGITS + 9 + length words.now ≤ end) × (end ≤ length line.old) }
    ensures line { drop result line.new ≡ codes "at " ++ decimal process.now.place ++ codes " regs "
        ++ registers_text process.now.registers ++ words.now ++ drop end line.old }
    ensures start { (result ≤ end) × (end ≤ result + REGISTERS + DIGITS + 9 + length words.now) }
    ensures length { length line.new ≡ length line.old }
{
    let start = put_registers(&process.registers, words, line, end);
    let start = put_number(u64::from(process.place), b" regs ", line, start);
    put_words(b"at ", line, start)
}

/// Puts a process, and words behind it; `None` where its buffer has a byte that does not stand for itself.
#[tactic(auto, unfolding(crate::specs::Printed::held_text))]
fn put_process(process: &Process, words: &[u8], line: &mut [u8], end: usize) -> Option<usize>
    requires { (HELD + length words.now ≤ end) × (end ≤ length line.old) }
    ensures line { IfSome result (λ start.
        drop start line.new ≡ process_text process.now ++ words.now ++ drop end line.old) }
    ensures start { IfSome result (λ start.
        (start ≤ end) × (end ≤ start + HELD + length words.now)) }
    ensures length { length line.new ≡ length line.old }
{
    let start = put_made(process, words, line, end);
    let start = put_literal(process.buffer.as_slice(), b" ", line, start)?;
    Some(put_place(process, b" buf ", line, start))
}

/// The bytes of a file of one block at most.
fn short_bytes(file: &File) -> Option<&[u8]>
    ensures { IfSome result (λ bytes. (bytes.now ≡ file.now) × (length bytes.now ≤ 512)) }
{
    let size = file.len();
    if size == 0 {
        return Some(&[]);
    }
    if size > 512 {
        return None;
    }
    Some(file.block(0))
}

/// Puts a file, and words behind it; `None` for one of several blocks, and where a byte does not stand for itself.
fn put_file(file: &File, words: &[u8], line: &mut [u8], end: usize) -> Option<usize>
    requires { (HELD + length words.now ≤ end) × (end ≤ length line.old) }
    ensures line { IfSome result (λ start. drop start line.new ≡ codes "file "
        ++ decimal (length file.now) ++ 32 ∷ spelled file.now ++ words.now ++ drop end line.old) }
    ensures start { IfSome result (λ start.
        (start ≤ end) × (end ≤ start + HELD + length words.now)) }
    ensures length { length line.new ≡ length line.old }
{
    let bytes = short_bytes(file)?;
    let start = put_literal(bytes, words, line, end)?;
    let start = put_number(bytes.len() as u64, b" ", line, start);
    Some(put_words(b"file ", line, start))
}

/// Puts `-` for no signals, and words behind it; `None` where there are some.
fn put_signals(signals: &Signals, words: &[u8], line: &mut [u8], end: usize) -> Option<usize>
    requires { (HELD + length words.now ≤ end) × (end ≤ length line.old) }
    ensures line { IfSome result (λ start.
        drop start line.new ≡ joined 44 decimal signals.now ++ words.now ++ drop end line.old) }
    ensures start { IfSome result (λ start.
        (start ≤ end) × (end ≤ start + HELD + length words.now)) }
    ensures length { length line.new ≡ length line.old }
{
    match signals.as_slice() {
        [] => {
            let start = put_words(words, line, end);
            Some(put_words(b"-", line, start))
        }
        _ => None,
    }
}

/// Puts most values, and words behind them; `None` for the others, directories among them.
fn put_value(value: &Value, words: &[u8], line: &mut [u8], end: usize) -> Option<usize>
    requires { (HELD + length words.now ≤ end) × (end ≤ length line.old) }
    ensures line { IfSome result (λ start.
        drop start line.new ≡ value_text value.now ++ words.now ++ drop end line.old) }
    ensures kind { IfSome result (λ start. value.now ≢ Value.Dir) }
    ensures start { IfSome result (λ start.
        (start ≤ end) × (end ≤ start + HELD + length words.now)) }
    ensures length { length line.new ≡ length line.old }
{
    match value {
        Value::File(file) => put_file(file, words, line, end),
        Value::Link(object) => Some(put_object(*object, words, line, end)),
        Value::Signals(signals) => put_signals(signals, words, line, end),
        Value::Exit(status) => Some(put_option(status.map(u32::from), words, line, end)),
        Value::Dir | Value::Pipe(_) | Value::Copy(_) => None,
    }
}

/// Puts the word of a kind, a process, and words behind it.
#[inline(always)]
fn put_named(kind: &[u8], pid: Pid, words: &[u8], line: &mut [u8], end: usize) -> usize
    requires { (LEVELS + length kind.now + length words.now ≤ end) × (end ≤ length line.old) }
    ensures line { drop result line.new ≡ kind.now ++ pid_word pid ++ words.now ++ drop end line.old }
    ensures start { (result ≤ end) × (end ≤ result + LEVELS + length kind.now + length words.now) }
    ensures length { length line.new ≡ length line.old }
{
    let start = put_pid(pid, words, line, end);
    put_words(kind, line, start)
}

/// Puts an entity, and words behind it; `None` for a name of a directory and for a cached copy.
fn put_entity(entity: &Entity, words: &[u8], line: &mut [u8], end: usize) -> Option<usize>
    requires { (OBJECT + 4 + length words.now ≤ end) × (end ≤ length line.old) }
    ensures line { IfSome result (λ start.
        drop start line.new ≡ entity_text entity.now ++ words.now ++ drop end line.old) }
    ensures start { IfSome result (λ start.
        (start ≤ end) × (end ≤ start + OBJECT + 4 + length words.now)) }
    ensures length { length line.new ≡ length line.old }
{
    match entity {
        Entity::Proc(pid) => Some(put_named(b"proc ", *pid, words, line, end)),
        Entity::Sig(pid) => Some(put_named(b"sig ", *pid, words, line, end)),
        Entity::Exit(pid) => Some(put_named(b"exit ", *pid, words, line, end)),
        Entity::Obj(id) => {
            let start = put_object(*id, words, line, end);
            Some(put_words(b"obj ", line, start))
        }
        Entity::Link(..) | Entity::Copy(_) => None,
    }
}

/// Puts an entity and the process that it has in a line, before a place, and returns where they start; `None` as above.
pub(crate) fn put_with_process(
    entity: &Entity,
    process: &Process,
    line: &mut [u8],
    end: usize,
) -> Option<usize>
    requires { (HELD + OBJECT + 5 ≤ end) × (end ≤ length line.old) }
    ensures line { IfSome result (λ start. drop start line.new
        ≡ entity_text entity.now ++ 32 ∷ process_text process.now ++ drop end line.old) }
    ensures start { IfSome result (λ start. start ≤ end) }
    ensures length { length line.new ≡ length line.old }
{
    let start = put_process(process, b"", line, end)?;
    put_entity(entity, b" ", line, start)
}

/// Puts an entity and the value that it has in a line, before a place, and returns where they start; `None` as above.
pub(crate) fn put_with_value(
    entity: &Entity,
    value: &Value,
    line: &mut [u8],
    end: usize,
) -> Option<usize>
    requires { (HELD + OBJECT + 5 ≤ end) × (end ≤ length line.old) }
    ensures line { IfSome result (λ start. drop start line.new
        ≡ entity_text entity.now ++ 32 ∷ value_text value.now ++ drop end line.old) }
    ensures kind { IfSome result (λ start. value.now ≢ Value.Dir) }
    ensures start { IfSome result (λ start. start ≤ end) }
    ensures length { length line.new ≡ length line.old }
{
    let start = put_value(value, b"", line, end)?;
    put_entity(entity, b" ", line, start)
}
