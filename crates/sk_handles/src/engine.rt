//! What the answers of a consensus engine tell a host whose log lies in one. Nothing is held: each call is told by its arguments
//! alone.
ghost use Rattle.std.specs.Prelude.{◌≡◌};
ghost use Rattle.sk_engine.specs.Told.{batch_told, fence_told, lead_told, round_told};
ghost use Rattle.sk_handles.specs.EngineCalls.{batch_answer_of, fence_answer_of, held_by, lead_answer_of, leader_of, round_answer_of, word_told};

use crate::told::Told;
use sk_engine::{
    Batch, BatchAnswer, BatchSeen, Fence, FenceAnswer, FenceSeen, Held, LeadAnswer, LeadSeen,
    Round, RoundAnswer, Told as Word,
};

/// Of a try: it was carried out.
pub const CARRIED_OUT: u32 = 0;
/// Of a try: it was not carried out, or it only looked, and what was seen is told. By any other number nothing is known.
pub const SEEN: u32 = 1;

/// The batch of this number stands in the log.
pub const SYNCED: u32 = 0;
/// The batch of this number never will.
pub const LOST: u32 = 1;
/// Nobody can know whether the batch of this number stood in the log.
pub const UNKNOWABLE: u32 = 2;
/// The leadership held at some moment after the round of this number was begun.
pub const STILL: u32 = 3;
/// Nothing stands behind the gap.
pub const SERVES: u32 = 4;
/// The leadership is over.
pub const OVER: u32 = 5;
/// Nothing is known: the same is to be asked again.
pub const AGAIN: u32 = 6;
/// The leadership of this number is the host's.
pub const CLAIMED: u32 = 7;
/// Another leads.
pub const WAITS: u32 = 8;
/// The engine contradicts itself.
pub const BREACH: u32 = 9;

/// The leadership of the leader, or 0 where there is none.
fn leader_of(leader: u64) -> Option<u64>
    ensures { result ≡ leader_of leader }
{
    if leader == 0 { None } else { Some(leader) }
}

/// What stands under a number: 0 nothing, 1 just its bytes, else other bytes.
fn held_by(held: u32) -> Held
    ensures { result ≡ held_by held }
{
    if held == 0 {
        Held::Absent
    } else if held == 1 {
        Held::Mine
    } else {
        Held::Another
    }
}

fn batch_answer_of(answer: u32, leader: u64, held: u32, snap: u64) -> BatchAnswer
    ensures { result ≡ batch_answer_of answer leader held snap }
{
    if answer == CARRIED_OUT {
        BatchAnswer::Done
    } else if answer == SEEN {
        BatchAnswer::Not(BatchSeen {
            leader: leader_of(leader),
            held: held_by(held),
            snap,
        })
    } else {
        BatchAnswer::Unknown
    }
}

fn fence_answer_of(answer: u32, leader: u64, fence: u64) -> FenceAnswer
    ensures { result ≡ fence_answer_of answer leader fence }
{
    if answer == CARRIED_OUT {
        FenceAnswer::Done
    } else if answer == SEEN {
        FenceAnswer::Not(FenceSeen {
            leader: leader_of(leader),
            fence,
        })
    } else {
        FenceAnswer::Unknown
    }
}

fn round_answer_of(answer: u32, leader: u64) -> RoundAnswer
    ensures { result ≡ round_answer_of answer leader }
{
    if answer == SEEN {
        RoundAnswer::Seen(leader_of(leader))
    } else {
        RoundAnswer::Unknown
    }
}

fn lead_answer_of(answer: u32, leadership: u64, held: u32) -> LeadAnswer
    ensures { result ≡ lead_answer_of answer leadership held }
{
    if answer == CARRIED_OUT {
        LeadAnswer::Done(leadership)
    } else if answer == SEEN {
        LeadAnswer::Not(LeadSeen {
            leadership,
            held: held_by(held),
        })
    } else {
        LeadAnswer::Unknown
    }
}

/// The number of what is told, with that of a batch, a round or a leadership.
fn word_told(word: Word) -> Told
    ensures { result ≡ word_told word }
{
    match word {
        Word::Synced(number) => Told::of(SYNCED, number),
        Word::Lost(number) => Told::of(LOST, number),
        Word::Unknowable(number) => Told::of(UNKNOWABLE, number),
        Word::Still(number) => Told::of(STILL, number),
        Word::Serves => Told::of(SERVES, 0),
        Word::Over => Told::of(OVER, 0),
        Word::Again => Told::of(AGAIN, 0),
        Word::Claimed(leadership) => Told::of(CLAIMED, leadership),
        Word::Waits => Told::of(WAITS, 0),
        Word::Breach => Told::of(BREACH, 0),
    }
}

/// What an answer to a try of a batch tells.
pub fn tell_batch(batch: Batch, answer: u32, leader: u64, held: u32, snap: u64) -> Told
    ensures { result ≡ word_told (batch_told batch (batch_answer_of answer leader held snap)) }
{
    word_told(batch.told(batch_answer_of(answer, leader, held, snap)))
}

/// What an answer to a try of a fence tells.
pub fn tell_fence(fence: Fence, answer: u32, leader: u64, fenced: u64) -> Told
    ensures { result ≡ word_told (fence_told fence (fence_answer_of answer leader fenced)) }
{
    word_told(fence.told(fence_answer_of(answer, leader, fenced)))
}

/// What an answer to a round tells.
pub fn tell_round(round: Round, answer: u32, leader: u64) -> Told
    ensures { result ≡ word_told (round_told round (round_answer_of answer leader)) }
{
    word_told(round.told(round_answer_of(answer, leader)))
}

/// What an answer to a try to lead tells.
pub fn tell_lead(answer: u32, leadership: u64, held: u32) -> Told
    ensures { result ≡ word_told (lead_told (lead_answer_of answer leadership held)) }
{
    word_told(lead_answer_of(answer, leadership, held).told())
}
