// Reading an input of unknown length into a buffer, so that an input that was not read whole is never taken for one that was.
ghost use Rattle.std.specs.Prelude.{length};
ghost use Rattle.mudorder.specs.Input.{Possible, Given};

use std::io;
use std::io::Read;

// What became of an input that no read failed of.
// Kept (point 1): an `Option` of the count would not say that `None` is the full buffer.
#[derive(Clone, Copy)]
pub enum Input {
    // It ended behind so many bytes, and they stand in the buffer.
    Ended(usize),
    // It fills the buffer, and more may follow.
    Full,
}

// Reads until the buffer is full, the input ends or a read fails: what came before a read that failed is not the input. On an input that does not wait, a
// read that has nothing to give yet has failed. One that a signal interrupts would have failed too, but the program handles no signal, so the system takes
// such a read up again by itself.
// Kept (point 3): `read_exact` says nothing of an input that ends before the buffer is full, and `read_to_end` needs a `Vec`.
pub fn fill<R: Read>(reader: &mut R, buffer: &mut [u8]) -> io::Result<Input>
    ensures possible { Possible (length buffer.old) result }
    ensures given { Given (R.remaining reader.old) buffer.new result }
{
    let mut done = 0;
    while done < buffer.len() {
        match reader.read(&mut buffer[done..])? {
            0 => return Ok(Input::Ended(done)),
            count => done += count,
        }
    }
    Ok(Input::Full)
}
