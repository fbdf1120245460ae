//! Writing whole pieces.

ghost use Rattle.std.specs.Prelude.{◌≡◌, ◌++◌, Some, OnOk, OnErr};
ghost use Rattle.mt_outside.specs.Told.{Told};
ghost use Rattle.mt_shell.specs.Outsides.{writes_on, CountsSink};
ghost use Rattle.mt_shell.specs.Reads.{WroteFront};

use super::edge::Edge;
use mt_outside::SinkError;

/// Writes all of the piece. After an error a front of it was taken, and nothing is written behind one.
pub fn write_all<E: Edge>(edge: &mut E, piece: &[u8]) -> Result<(), SinkError>
    ensures ok { OnOk result (Told ((E.seen edge.old).written) (λ all. (E.seen edge.new).written ≡ Some (all ++ piece.now))) }
    ensures part { OnErr result (Told ((E.seen edge.old).written) (λ all. WroteFront piece.now all ((E.seen edge.new).written))) }
    ensures counts { CountsSink result (E.seen edge.old) (E.seen edge.new) }
    ensures only { E.seen edge.new ≡ writes_on (E.seen edge.old) (E.seen edge.new) }
    ensures names { E.names edge.new ≡ E.names edge.old }
{
    let mut done = 0;
    while done < piece.len() {
        done += edge.write(&piece[done..])?;
    }
    Ok(())
}
