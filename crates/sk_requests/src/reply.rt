//! The writing of replies. Where there is no memory, nothing is written.
ghost use Rattle.std.specs.Prelude.{◌≡◌, ◌+◌, ◌≤◌, ◌∷◌, ◌++◌, [], length, map, vec_capacity, OnOk, OnErr};
ghost use Rattle.sk_requests.specs.Replies.{in_line, line_text, simple_text, error_text, integer_text, bulk_text, null_text, array_text};

use itoa::Buffer;
use std::alloc::AllocError;

/// Writes a simple string; a line break in it becomes a space.
pub fn simple(out: &mut Vec<u8>, text: &[u8]) -> Result<(), AllocError>
    ensures ok { OnOk result (out.new.items ≡ out.old.items ++ simple_text text.now) }
    ensures err { OnErr result (out.new.items ≡ out.old.items) }
{
    line(out, b'+', text)
}

/// Writes an error; a line break in it becomes a space.
pub fn error(out: &mut Vec<u8>, text: &[u8]) -> Result<(), AllocError>
    ensures ok { OnOk result (out.new.items ≡ out.old.items ++ error_text text.now) }
    ensures err { OnErr result (out.new.items ≡ out.old.items) }
{
    line(out, b'-', text)
}

/// Writes an integer.
pub fn integer(out: &mut Vec<u8>, number: i64) -> Result<(), AllocError>
    ensures ok { OnOk result (out.new.items ≡ out.old.items ++ integer_text number) }
    ensures err { OnErr result (out.new.items ≡ out.old.items) }
{
    let mut buffer = Buffer::new();
    let digits = buffer.format(number).as_bytes();
    out.reserve(digits.len() + 3)?;
    append_head(out, b':', digits);
    Ok(())
}

/// Writes a string of any bytes.
pub fn bulk(out: &mut Vec<u8>, bytes: &[u8]) -> Result<(), AllocError>
    ensures ok { OnOk result (out.new.items ≡ out.old.items ++ bulk_text bytes.now) }
    ensures err { OnErr result (out.new.items ≡ out.old.items) }
{
    let mut buffer = Buffer::new();
    let digits = buffer.format(bytes.len()).as_bytes();
    out.reserve(digits.len() + 5 + bytes.len())?;
    append_head(out, b'$', digits);
    append(out, bytes);
    append_end(out);
    Ok(())
}

/// Writes that there is no string.
pub fn null(out: &mut Vec<u8>) -> Result<(), AllocError>
    ensures ok { OnOk result (out.new.items ≡ out.old.items ++ null_text) }
    ensures err { OnErr result (out.new.items ≡ out.old.items) }
{
    out.extend_from_slice(b"$-1\r\n")
}

/// Writes what stands before an array of so many replies.
pub fn array(out: &mut Vec<u8>, count: usize) -> Result<(), AllocError>
    ensures ok { OnOk result (out.new.items ≡ out.old.items ++ array_text count) }
    ensures err { OnErr result (out.new.items ≡ out.old.items) }
{
    let mut buffer = Buffer::new();
    let digits = buffer.format(count).as_bytes();
    out.reserve(digits.len() + 3)?;
    append_head(out, b'*', digits);
    Ok(())
}

/// Writes a line that begins with this mark.
fn line(out: &mut Vec<u8>, mark: u8, text: &[u8]) -> Result<(), AllocError>
    ensures ok { OnOk result (out.new.items ≡ out.old.items ++ line_text mark text.now) }
    ensures err { OnErr result (out.new.items ≡ out.old.items) }
{
    out.reserve(text.len() + 3)?;
    out.push_reserved(mark);
    append_text(out, text);
    append_end(out);
    Ok(())
}

/// Writes bytes as a line may have them, into room that is there.
fn append_text(out: &mut Vec<u8>, text: &[u8])
    requires { length out.old.items + length text.now ≤ vec_capacity out.old }
    ensures items { out.new.items ≡ out.old.items ++ map in_line text.now }
    ensures capacity { vec_capacity out.old ≤ vec_capacity out.new }
{
    for byte in text {
        out.push_reserved(in_line(*byte));
    }
}

/// A byte as a line may have it.
fn in_line(byte: u8) -> u8
    ensures { result ≡ in_line byte }
{
    if byte == b'\r' || byte == b'\n' {
        b' '
    } else {
        byte
    }
}

/// Writes a line of a mark and digits, into room that is there.
fn append_head(out: &mut Vec<u8>, mark: u8, digits: &[u8])
    requires { length out.old.items + (length digits.now + 3) ≤ vec_capacity out.old }
    ensures items { out.new.items ≡ out.old.items ++ (mark ∷ (digits.now ++ 13 ∷ 10 ∷ [])) }
    ensures capacity { vec_capacity out.old ≤ vec_capacity out.new }
{
    out.push_reserved(mark);
    append_digits(out, digits);
    append_end(out);
}

/// Writes digits, which are few, into room that is there.
fn append_digits(out: &mut Vec<u8>, digits: &[u8])
    requires { length out.old.items + length digits.now ≤ vec_capacity out.old }
    ensures items { out.new.items ≡ out.old.items ++ digits.now }
    ensures capacity { vec_capacity out.old ≤ vec_capacity out.new }
{
    for digit in digits {
        out.push_reserved(*digit);
    }
}

/// Writes the end of a line, into room that is there.
fn append_end(out: &mut Vec<u8>)
    requires { length out.old.items + 2 ≤ vec_capacity out.old }
    ensures items { out.new.items ≡ out.old.items ++ 13 ∷ 10 ∷ [] }
    ensures capacity { vec_capacity out.old ≤ vec_capacity out.new }
{
    out.push_reserved(b'\r');
    out.push_reserved(b'\n');
}

/// Writes bytes, into room that is there.
fn append(out: &mut Vec<u8>, bytes: &[u8])
    requires { length out.old.items + length bytes.now ≤ vec_capacity out.old }
    ensures items { out.new.items ≡ out.old.items ++ bytes.now }
    ensures capacity { vec_capacity out.old ≤ vec_capacity out.new }
{
    let _appended = out.extend_from_slice(bytes);
}
