// Laws of edits within a function, each the contract of a function that does nothing.

ghost use Rattle.std.specs.Prelude.{◌≡◌, ◌≢◌, ◌≤◌, ℕ, List, length, Some};
ghost use Rattle.jump_tables.specs.Sections.{placed};
ghost use Rattle.asm_unit.specs.Decisions.{codes};
ghost use Rattle.asm_unit.specs.Edits.{SameEach};
ghost use Rattle.asm_unit.specs.Freeze.{function_names};
ghost use Rattle.asm_unit.specs.Held.{entries_of};
ghost use Rattle.asm_unit.specs.Lasting.{lasting};
ghost use Rattle.asm_unit.specs.Unit.{Unit};
ghost use Rattle.unit_edits.specs.declared.edit.Edit.{Edit};
ghost use Rattle.unit_edits.specs.Proper.{IsProper, AllProper};
ghost use Rattle.unit_edits.specs.Replay.{edited, replay};
ghost use Rattle.edit_laws.specs.Stays.{IsSound, FunctionStays, IsOfPadding};

/// A sound unit stays sound: no serial comes twice, and each is at most the last one given.
pub fn sound_stays()
    ensures { (u v : Unit) (f : ℕ) (e : Edit) → IsSound u → IsProper u f e → edited e u ≡ Some v → IsSound v }
{}

/// Every other function keeps its entries, with their spans, and nothing comes between them.
pub fn other_functions_stay()
    ensures { (u v : Unit) (f k : ℕ) (e : Edit) → IsSound u → IsProper u f e → edited e u ≡ Some v → k ≢ f → FunctionStays u v k }
{}

/// The functions keep their names and their places, and so does every entry that is neither an instruction nor an alignment.
pub fn names_stay()
    ensures names { (u v : Unit) (f : ℕ) (e : Edit) → IsSound u → IsProper u f e → edited e u ≡ Some v
        → function_names (placed (entries_of v.held)) ≡ function_names (placed (entries_of u.held)) }
    ensures lasting { (u v : Unit) (f : ℕ) (e : Edit) → IsSound u → IsProper u f e → edited e u ≡ Some v
        → lasting (entries_of v.held) ≡ lasting (entries_of u.held) }
{}

/// What stays through one edit and through the next stays through both.
pub fn staying_goes_on()
    ensures refl { (u : Unit) (k : ℕ) → FunctionStays u u k }
    ensures trans { (u v w : Unit) (k : ℕ) → FunctionStays u v k → FunctionStays v w k → FunctionStays u w k }
{}

/// A unit that holds no more entries than serials were given holds no more afterwards.
pub fn room_stays()
    ensures { (u v : Unit) (f : ℕ) (e : Edit) → IsSound u → IsProper u f e → edited e u ≡ Some v → length u.held ≤ u.last → length v.held ≤ v.last }
{}

/// Where a `nop` or an alignment goes or comes, each function behaves as before.
pub fn padding_tells_nothing()
    ensures { (u v : Unit) (e : Edit) → IsSound u → IsOfPadding u e → edited e u ≡ Some v
        → SameEach (codes u.decided (entries_of u.held)) (codes u.decided (entries_of v.held)) }
{}

/// The same of edits within one function in order, each on the unit as it then stands.
pub fn replays_leave_the_same()
    ensures sound { (u v : Unit) (f : ℕ) (es : List Edit) → IsSound u → AllProper f u es → replay es u ≡ Some v → IsSound v }
    ensures others { (u v : Unit) (f k : ℕ) (es : List Edit) → IsSound u → AllProper f u es → replay es u ≡ Some v → k ≢ f → FunctionStays u v k }
    ensures names { (u v : Unit) (f : ℕ) (es : List Edit) → IsSound u → AllProper f u es → replay es u ≡ Some v
        → function_names (placed (entries_of v.held)) ≡ function_names (placed (entries_of u.held)) }
    ensures lasting { (u v : Unit) (f : ℕ) (es : List Edit) → IsSound u → AllProper f u es → replay es u ≡ Some v
        → lasting (entries_of v.held) ≡ lasting (entries_of u.held) }
    ensures room { (u v : Unit) (f : ℕ) (es : List Edit) → IsSound u → AllProper f u es → replay es u ≡ Some v → length u.held ≤ u.last → length v.held ≤ v.last }
{}
