// The code of a function, by its serials.

ghost use Rattle.std.specs.Prelude.{◌≡◌, ◌<◌, map, length, IfOk};
ghost use Rattle.asm_unit.specs.Functions.{code_part};
ghost use Rattle.asm_unit.specs.Held.{AreUnique};
ghost use Rattle.unit_edits.specs.Bodies.{body_of};

use asm_unit::AsmUnit;
use insn_ir::SerialList;
use std::alloc::{AllocError, Global};

/// The serials of the entries of a function's code, in order, by one walk. No entry of the unit shares its serial.
pub(crate) fn code_serials(alloc: Global, unit: &AsmUnit, f: u32) -> Result<SerialList, AllocError>
    requires { f < length unit.now.decided }
    ensures unique { AreUnique unit.now.held }
    ensures serials { IfOk result (λ serials. serials ≡ map (λ p. p.entry.serial) (code_part (body_of unit.now f))) }
{
    // Its contract says that no serial comes twice.
    let _first = unit.first();
    let mut serials = SerialList::new(alloc);
    let mut at = unit.label(f);
    serials.push(at)?;
    while let Some(next) = unit.next_code(f, at) {
        serials.push(next)?;
        at = next;
    }
    Ok(serials)
}
