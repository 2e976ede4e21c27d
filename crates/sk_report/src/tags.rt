//! The guesses that an entity depends on, put in a room from the last one on and written at once.
ghost use Rattle.std.specs.Prelude.{◌≡◌, ◌≤◌, ◌+◌, ◌*◌, ◌∷◌, ◌++◌, codes, decimal, drop, flat_map, length, OnOk};
ghost use Rattle.sk_report.specs.Base.{Appends, TAG};
ghost use Rattle.sk_report.specs.Printed.{tags_text};
ghost use Rattle.sk_report.specs.declared.tags.TheConstants.{ROOM};

use crate::placed::{DIGITS, put_number, put_words};
use crate::printed::PrintedIds;
use sk_ids::GuessId;
use std::io;
use std::io::Write;

/// The places of a guess's number and of a comma.
const TAG: usize = DIGITS + 1;

/// The room for as many guesses as a kernel has undecided, and the words before them.
const ROOM: usize = 64 * TAG + 7;

/// Puts guesses in a line before a place, each behind a comma, and returns where they start.
fn put_more(ids: &[GuessId], line: &mut [u8], end: usize) -> usize
    requires { (length ids.now * TAG ≤ end) × (end ≤ length line.old) }
    ensures line { drop result line.new
        ≡ flat_map (λ id. 44 ∷ decimal id) ids.now ++ drop end line.old }
    ensures start { (result ≤ end) × (end ≤ result + length ids.now * TAG) }
    ensures length { length line.new ≡ length line.old }
{
    let mut start = end;
    for back in (0..ids.len()).rev() {
        let digits = put_number(ids[back].number(), b"", line, start);
        start = put_words(b",", line, digits);
    }
    start
}

/// Puts guesses in a line before a place, joined by commas, or `-` where there is none, and returns where they start.
fn put_tags(ids: &[GuessId], line: &mut [u8], end: usize) -> usize
    requires { (length ids.now * TAG + 1 ≤ end) × (end ≤ length line.old) }
    ensures line { drop result line.new ≡ tags_text ids.now ++ drop end line.old }
    ensures start { (result ≤ end) × (end ≤ result + length ids.now * TAG + 1) }
    ensures length { length line.new ≡ length line.old }
{
    match ids {
        [] => put_words(b"-", line, end),
        [first, others @ ..] => {
            let start = put_more(others, line, end);
            put_number(first.number(), b"", line, start)
        }
    }
}

/// Writes the guesses that an entity depends on, behind ` tags `.
pub(crate) fn write_tags<W: Write>(ids: &[GuessId], out: &mut W) -> io::Result<()>
    ensures { OnOk result (Appends (W.contents out.old) (W.contents out.new)
        (codes " tags " ++ tags_text ids.now)) }
{
    if ids.len() > 64 {
        let tags = PrintedIds(ids);
        return write!(out, " tags {tags}");
    }
    let mut room = [0; ROOM];
    write_short(ids, &mut room, out)
}

/// Writes at most 64 guesses behind ` tags `, at once from a room.
fn write_short<W: Write>(ids: &[GuessId], room: &mut [u8; ROOM], out: &mut W) -> io::Result<()>
    requires { length ids.now ≤ 64 }
    ensures { OnOk result (Appends (W.contents out.old) (W.contents out.new)
        (codes " tags " ++ tags_text ids.now)) }
{
    let start = put_tags(ids, room, ROOM);
    let start = put_words(b" tags ", room, start);
    out.write_all(&room[start..])
}
