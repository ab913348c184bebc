ghost use Rattle.std.specs.Prelude.{◌≡◌, ◌≤◌, ◌++◌, IsTrue, OnOk, IfErr};
ghost use Rattle.h2_io.specs.Sink.{HasCause, GrowsByFront};

use crate::sink::{PutFault, Sink};

/// Puts the whole text. Where the sink refuses, it holds a front of the text more than before.
pub fn print<K: Sink>(out: &mut K, text: &[u8]) -> Result<(), PutFault>
    ensures whole { OnOk result (IsTrue K.tells → K.held out.new ≡ K.held out.old ++ text.now) }
    ensures front { IsTrue K.tells → GrowsByFront text.now (K.held out.old) (K.held out.new) }
    ensures later { K.faults out.old ≤ K.faults out.new }
    ensures cause { IfErr result (λ fault. HasCause (K.faults out.old) (K.faults out.new) fault) }
    ensures memory { IfErr result (λ fault. IsTrue K.never_wants_memory → fault ≡ PutFault.Failed) }
{
    let mut done = 0;
    while done < text.len() {
        match out.put(&text[done..]) {
            Ok(count) => done += count,
            Err(fault) => return Err(fault),
        }
    }
    Ok(())
}
