//! How a run ends behind what it printed.
ghost use Rattle.sk_run.specs.Base.{writer_buffer, writer_contents, IsFlushed};
ghost use Rattle.sk_run.specs.Run.{EndsReport};

use sk_command::end::{End, flushed};
use sk_report::Stop;
use std::io::{BufWriter, Write};

/// Ends a run whose report was written so: what the output buffers is written out, but nothing after a refused write.
pub fn ended<W: Write + Drop>(written: Result<(), Stop>, out: &mut BufWriter<W>) -> End
    ensures end { EndsReport written result (writer_buffer out.new)
        (writer_contents W.contents out.old) (writer_contents W.contents out.new) }
    ensures flushed { IsFlushed result (writer_buffer out.new) }
{
    match written {
        Ok(()) => flushed(out),
        Err(Stop::Memory) => {
            let _ = flushed(out);
            End::Trouble
        }
        Err(Stop::Output) => End::OutputRefused,
    }
}
