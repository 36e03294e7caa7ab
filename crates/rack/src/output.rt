// Standard output, written so that a write that a signal interrupts is told as a failure, as such a read is. std's `write_all` tries it again.
ghost use Rattle.std.specs.Prelude.{OnOk, OnErr};
ghost use Rattle.std.specs.Io.KnownBytes.{Appends};
ghost use Rattle.rack.specs.Output.{AppendsPart};

use std::io;
use std::io::{ErrorKind, Write};

// Writes the whole text. It stops at the first write that fails or takes nothing, and a part of the text may be out already then.
pub fn write_text<W: Write>(output: &mut W, text: &[u8]) -> io::Result<()>
    ensures ok { OnOk result (Appends (W.contents output.old) (W.contents output.new) text.now) }
    ensures err { OnErr result (AppendsPart (W.contents output.old) (W.contents output.new) text.now) }
{
    let mut done = 0;
    while done < text.len() {
        let put = output.write(&text[done..])?;
        if put == 0 {
            return Err(io::Error::from(ErrorKind::WriteZero));
        }
        done += put;
    }
    Ok(())
}
