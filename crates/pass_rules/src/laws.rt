// Laws of edits, each the contract of a function that does nothing.

ghost use Rattle.std.specs.Prelude.{◌≡◌, ℕ, List};
ghost use Rattle.blocks_cfg.specs.Stretch.{AreOf};
ghost use Rattle.asm_unit.specs.Decisions.{Decision, code_with};
ghost use Rattle.asm_unit.specs.Functions.{Part as Body};
ghost use Rattle.asm_unit.specs.Unit.{Unit as Held};
ghost use Rattle.pass_script.specs.declared.script.Step.{Step};
ghost use Rattle.unit_edits.specs.declared.edit.Edit.{Edit};
ghost use Rattle.pass_rules.specs.Aligning.{AlignsLoops, AlignsBranches};
ghost use Rattle.pass_rules.specs.Goals.{Goal, AreGoals};
ghost use Rattle.pass_rules.specs.Stretches.{items_of};

/// The items of the entries of a function are those of the lines of its code. So between two places of one stretch control just
/// goes on.
pub fn items_are_of_lines()
    ensures { (d : Decision) (body : Body) → AreOf (items_of body) (code_with d body).lines }
{}

/// The rules of LOOP16 and of BRALIGN allow one list of edits of a function, and a script has one list of goals on a unit. So a pass or
/// a report that meets them gives exactly that list.
pub fn one_list_is_asked_for()
    ensures loops { (f : ℕ) (u : Held) (es fs : List Edit) → AlignsLoops f u es → AlignsLoops f u fs → es ≡ fs }
    ensures branches { (max f : ℕ) (u : Held) (es fs : List Edit) → AlignsBranches max f u es → AlignsBranches max f u fs → es ≡ fs }
    ensures goals { (steps : List Step) (u : Held) (gs hs : List Goal) → AreGoals steps u gs → AreGoals steps u hs → gs ≡ hs }
{}
