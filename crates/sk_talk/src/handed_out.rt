//! Handing out the texts of terminals, each once.
ghost use Rattle.std.specs.Prelude.{◌≡◌, drop, IfOk, OnOk, OnErr};
ghost use Rattle.sk_talk.specs.Base.{Appends, texts_lines};
ghost use Rattle.std.specs.FinMap as map;
ghost use Rattle.sk_talk.specs.HandedOut.{all_handed, handed_at, released_in, released_answer, released_lines};

use sk_ids::Text;
use sk_kernel::Kernel;
use sk_map::Map;
use sk_report::Stop;
use sk_script::words::Literal;
use std::alloc::{AllocError, Global};
use std::io;
use std::io::Write;
use std::marker::Model;

/// How many texts of each terminal were handed out.
#[derive(Drop)]
pub struct HandedOut {
    counts: Map<u16, usize>,
}

impl Model for HandedOut {
    ghost use Rattle.std.specs.Ordering.{nat_cmp};
    ghost use Rattle.sk_map.specs.Seen.{seen};
    ghost use Rattle.sk_talk.specs.HandedOut.{HandedMap, handed_code};

    ghost Value = { HandedMap };

    ghost coded = { handed_code };

    ghost view = { λ h. seen nat_cmp h.counts };
}

/// What a terminal has released.
pub fn released(kernel: &Kernel, number: u16) -> &[Text]
    ensures { result.now ≡ released_in kernel.now number }
{
    match kernel.terminal(number) {
        Some(terminal) => terminal.released(),
        None => &[],
    }
}

/// The texts behind so many.
fn behind(texts: &[Text], count: usize) -> &[Text]
    ensures { result.now ≡ drop count texts.now }
{
    if count < texts.len() {
        &texts[count..]
    } else {
        &[]
    }
}

/// Writes texts, a literal a line.
fn write_texts<W: Write>(texts: &[Text], out: &mut W) -> io::Result<()>
    ensures { OnOk result
        (Appends (W.contents out.old) (W.contents out.new) (texts_lines texts.now)) }
{
    for text in texts {
        let literal = Literal(text.as_slice());
        writeln!(out, "{literal}")?;
    }
    Ok(())
}

/// How many texts there are, and the texts.
fn lines(alloc: Global, texts: &[Text]) -> Result<Vec<u8>, Stop>
    ensures { IfOk result (λ text. text.items ≡ released_lines texts.now) }
{
    let mut text = Vec::new(alloc);
    let count = texts.len();
    writeln!(text, "released {count}")?;
    write_texts(texts, &mut text)?;
    Ok(text)
}

impl HandedOut {
    /// None was handed out.
    pub fn new(alloc: Global) -> HandedOut
        ensures { result ≡ map.empty }
    {
        HandedOut {
            counts: Map::new(alloc),
        }
    }

    /// How many texts of a terminal were handed out.
    fn count_of(&self, number: u16) -> usize
        ensures { result ≡ handed_at self.now number }
    {
        match self.counts.get(&number) {
            Some(count) => *count,
            None => 0,
        }
    }

    /// Hands out the texts that a terminal has released and that were not handed out. Without memory none is.
    pub fn take(
        &mut self,
        alloc: Global,
        kernel: &Kernel,
        number: u16,
    ) -> Result<Vec<u8>, AllocError>
        ensures text { IfOk result (λ text.
            text.items ≡ released_answer kernel.now number (handed_at self.old number)) }
        ensures handed { OnOk result
            (self.new ≡ all_handed kernel.now number self.old) }
        ensures memory { OnErr result (self.new ≡ self.old) }
    {
        let texts = released(kernel, number);
        let Ok(text) = lines(alloc, behind(texts, self.count_of(number))) else {
            return Err(AllocError);
        };
        self.counts.put(number, texts.len())?;
        Ok(text)
    }
}
