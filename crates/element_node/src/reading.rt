//! Exact pieces of the input. A read asks for no byte that is not due.

ghost use Rattle.std.specs.Prelude.{◌≡◌, ◌≢◌, ℕ, ◌≤◌, List, Option, length, IfErr, IfOk, OnOk, Err};
ghost use Rattle.ftpp_outside.specs.Told.{Rose};
ghost use Rattle.element_node.specs.Dialog.{ready, piece, byte};
ghost use Rattle.element_node.specs.Progress.{Between, Halts};

use crate::Halt;
use ftpp_outside::Source;

/// Fills a piece with the next bytes.
pub(crate) fn take_piece<S: Source>(input: &mut S, into: &mut [u8]) -> Result<(), Halt>
    ensures taken { OnOk result ((w : Option (List ℕ)) → Between (piece (length into.old)) (ready into.new) (S.left input.old) (S.left input.new) w w) }
    ensures halted { IfErr result (λ halt. (w : Option (List ℕ)) → Halts (piece (length into.old)) halt (S.left input.old) (S.left input.new) w w) }
    ensures read { result ≡ Err Halt.Read → Rose (S.faults input.old) (S.faults input.new) }
    ensures no_write { result ≢ Err Halt.Write }
    ensures faults { S.faults input.old ≤ S.faults input.new }
{
    let mut done = 0;
    while done < into.len() {
        let Ok(count) = input.read(&mut into[done..]) else {
            return Err(Halt::Read);
        };
        if count == 0 {
            return Err(Halt::Ended);
        }
        done += count;
    }
    Ok(())
}

/// The next byte.
pub(crate) fn take_byte<S: Source>(input: &mut S) -> Result<u8, Halt>
    ensures taken { IfOk result (λ b. (w : Option (List ℕ)) → Between byte (ready b) (S.left input.old) (S.left input.new) w w) }
    ensures halted { IfErr result (λ halt. (w : Option (List ℕ)) → Halts byte halt (S.left input.old) (S.left input.new) w w) }
    ensures read { result ≡ Err Halt.Read → Rose (S.faults input.old) (S.faults input.new) }
    ensures no_write { result ≢ Err Halt.Write }
    ensures faults { S.faults input.old ≤ S.faults input.new }
{
    let mut one = [0; 1];
    take_piece(input, &mut one)?;
    Ok(one[0])
}
