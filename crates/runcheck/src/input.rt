// Standard input, read to its end.
ghost use Rattle.std.specs.Prelude.{◌≡◌, length, take, IfOk, IfSome, OnOk};
ghost use Rattle.std.specs.Io.{ReadsAtMost};
ghost use Rattle.std.specs.Io.KnownBytes.{IsAtEnd};

use std::io;
use std::io::Read;

// Room for one byte more than the longest run, so that the judge itself sees that a run is too long.
pub(crate) fn room() -> [u8; runs::LONGEST_RUN + 1]
    ensures { 65533 ≡ length result }
{
    [0; runs::LONGEST_RUN + 1]
}

// Reads the whole input, keeps its first bytes, as many as there is room for, and answers how many these are. What comes behind them
// is read too, so that what writes the input is not stopped.
pub(crate) fn read_all<R: Read>(input: &mut R, kept: &mut [u8]) -> io::Result<usize>
    ensures bound { ReadsAtMost result kept.new }
    ensures first { IfOk result (λ n. IfSome (R.remaining input.old) (λ bytes. take n kept.new ≡ take (length kept.old) bytes)) }
    ensures end { OnOk result (IsAtEnd (R.remaining input.new)) }
{
    let mut at: usize = 0;
    // No `for`: how far a turn goes is what the read answers, and a full room ends the loop before a read of nothing would.
    while at < kept.len() {
        let more = input.read(&mut kept[at..])?;
        if more == 0 {
            return Ok(at);
        }
        at += more;
    }
    io::copy(input, &mut io::sink())?;
    Ok(at)
}
