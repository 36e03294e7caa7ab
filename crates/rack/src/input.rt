// Standard input, read so that a read that fails is not taken for the end of the input. std's `read_to_end` needs a heap, and tries a read that a
// signal interrupts again.
ghost use Rattle.std.specs.Prelude.{◌≡◌, length};
ghost use Rattle.rack.specs.Input.{reading_of, Within, Came, Collected};

use std::io;
use std::io::Read;

// What the answer of a read into the part says. A failure stays one: as 0 bytes it would be the end of the input.
fn told_by(got: io::Result<usize>, part: &[u8]) -> io::Result<usize>
    ensures { result ≡ reading_of got (length part.now) }
{
    Ok(got?.min(part.len()))
}

// One read: 0 bytes at the end of the input.
fn read_some<R: Read>(input: &mut R, part: &mut [u8]) -> io::Result<usize>
    ensures within { Within result (length part.old) }
    ensures came { Came result (R.remaining input.old) (R.remaining input.new) part.new }
{
    let got = input.read(part);
    told_by(got, part)
}

// Reads until the input ends or the text is full. A part that was read before a failure is answered as a failure.
pub fn read_text<R: Read>(input: &mut R, text: &mut [u8]) -> io::Result<usize>
    ensures within { Within result (length text.old) }
    ensures collected { Collected result (R.remaining input.old) (R.remaining input.new) text.new }
{
    let mut done = 0;
    while done < text.len() {
        let got = read_some(input, &mut text[done..])?;
        if got == 0 {
            return Ok(done);
        }
        done += got;
    }
    Ok(done)
}
