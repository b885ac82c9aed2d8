// What is read of a source, whole.
ghost use Rattle.std.specs.Prelude.{◌≡◌, ◌<◌, ◌≤◌, ◌^◌, [], Some, length, IfErr, IfNone, IfOk, IfSome};
ghost use Rattle.b1_io.specs.Streams.{Rose};
ghost use Rattle.b1_shell.specs.declared.Unsaid.TheVariants.{Fault};

use crate::Unsaid;
use b1_io::{NotAll, Pieces, Source, read_into};

/// Reads the source to its end into what takes pieces, and gives that back; `None` where the source held more than the
/// limit.
pub fn read_to_end<S: Source, T: Pieces + Drop>(
    source: &mut S,
    to: T,
    limit: usize,
) -> Result<Option<T>, Unsaid>
    requires limit { limit < 2 ^ 31 }
    requires nothing { T.taken to ≡ [] }
    ensures few { IfOk result (λ r. IfSome r (λ t. length (T.taken t) ≤ limit)) }
    ensures all { IfOk result (λ r. IfSome r (λ t.
        IfSome (S.left source.old) (λ held. T.taken t ≡ held))) }
    ensures end { IfOk result (λ r. IfSome r (λ _.
        IfSome (S.left source.old) (λ _. S.left source.new ≡ Some []))) }
    ensures long { IfOk result (λ r. IfNone r (IfSome (S.left source.old) (λ held. limit
        < length held))) }
    ensures fault { IfErr result (λ e. e ≡ Fault
        → Rose (S.faults source.old) (S.faults source.new)) }
{
    let mut to = to;
    match read_into(source, &mut to, limit) {
        Ok(()) => Ok(Some(to)),
        Err(NotAll::Long) => Ok(None),
        Err(NotAll::Fault) => Err(Unsaid::Fault),
        Err(NotAll::Memory) => Err(Unsaid::Memory),
    }
}
