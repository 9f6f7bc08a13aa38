// Reading the whole input of a program.
ghost use Rattle.std.specs.Prelude.{ℕ, ◌<◌, ◌≤◌, length, take, IfOk, OnErr};
ghost use Rattle.std.specs.Io.KnownBytes.{Consumes, IsAtEnd};
ghost use Rattle.vector_text.specs.Counted.{Counted};

use std::io;
use std::io::Read;

// Reads to the end of the input, or until the memory is full, and answers how many bytes it put at its start; the error of a read that fails. The
// clauses speak of the bytes of a reader that tells what it will give; the standard input tells nothing, and no clause says that a read goes well.
pub fn read_full<R: Read>(input: &mut R, out: &mut [u8]) -> io::Result<usize>
    ensures count { IfOk result (λ n. Counted n out.new) }
    ensures bytes { IfOk result (λ n. Consumes (R.remaining input.old) (R.remaining input.new) (take n out.new)) }
    ensures err { OnErr result ((n : ℕ) × (n ≤ length out.new)
        × Consumes (R.remaining input.old) (R.remaining input.new) (take n out.new)) }
    ensures end { IfOk result (λ n. n < length out.new → IsAtEnd (R.remaining input.new)) }
{
    // by hand: `read_exact` refuses an input that ends before the lent memory is full, and `read_to_end` fills no lent memory
    let mut done = 0;
    while done < out.len() {
        let n = input.read(&mut out[done..])?;
        if n == 0 {
            return Ok(done);
        }
        done += n;
    }
    Ok(done)
}
