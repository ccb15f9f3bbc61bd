//! Bytes written through a tally.
ghost use Rattle.std.specs.Prelude.{◌≡◌, ◌↔◌, false, true, IsErrOf, IfErr, OnOk, OnErr};
ghost use Rattle.std.specs.Io.KnownBytes.{Appends, Keeps};
ghost use Rattle.pgn_extract.specs.Public.Outcomes.{AppendsFront};

use crate::output::outcome::RunError;
use pgn_text::Tally;
use std::io::Write;

/// Writes all of the bytes.
pub fn write_all<W: Write>(out: &mut Tally<W>, bytes: &[u8]) -> Result<(), RunError>
    requires { out.old.faulted ≡ false }
    ensures ok { OnOk result
        (Appends (W.contents out.old.inner) (W.contents out.new.inner) bytes.now) }
    ensures err { OnErr result
        (AppendsFront (W.contents out.old.inner) (W.contents out.new.inner) bytes.now) }
    ensures only { IfErr result (λ error. error ≡ RunError.Write) }
    ensures fault { IsErrOf result RunError.Write ↔ (out.new.faulted ≡ true) }
{
    let mut at = 0;
    while at < bytes.len() {
        match out.write(&bytes[at..]) {
            Ok(0) => return Err(RunError::Write),
            Ok(count) => at += count,
            Err(_) => return Err(RunError::Write),
        }
    }
    Ok(())
}

/// Flushes a writer.
pub fn finish<W: Write>(out: &mut Tally<W>) -> Result<(), RunError>
    requires { out.old.faulted ≡ false }
    ensures kept { Keeps (W.contents out.old.inner) (W.contents out.new.inner) }
    ensures ok { OnOk result (out.new.flushed ≡ true) }
    ensures only { IfErr result (λ error. error ≡ RunError.Write) }
    ensures fault { IsErrOf result RunError.Write ↔ (out.new.faulted ≡ true) }
{
    match out.flush() {
        Ok(()) => Ok(()),
        Err(_) => Err(RunError::Write),
    }
}
