// The rows of a solution under way, and the places that have still to pass on what they have.

ghost use Rattle.std.specs.Prelude.{◌≡◌, ◌<◌, ℕ, [], length, fold, slice_index, OnOk, MatchOption};
ghost use Rattle.std.specs.List.{All};
ghost use Rattle.fed_solver.specs.walks.Walk.{walk_of, handed, IsPopped};

use std::alloc::AllocError;

/// A row of bits for each place, and the list of the places that wait. A place with its mark is on the list.
#[derive(Drop)]
pub(crate) struct Work {
    pub rows: Vec<u64>,
    pub listed: Vec<bool>,
    pub list: Vec<usize>,
}

impl Work {
    // Gives the bits to a place, which waits if one is new to it.
    fn hand(&mut self, place: usize, give: u64) -> Result<(), AllocError>
        requires row { place < length self.old.rows.items }
        requires mark { place < length self.old.listed.items }
        ensures { OnOk result (walk_of self.new ≡ handed give (walk_of self.old) place) }
    {
        let row = self.rows[place];
        let grown = row | give;
        let waits = self.listed[place];
        self.rows[place] = grown;
        if grown != row && !waits {
            self.listed[place] = true;
            self.list.push(place)?;
        }
        Ok(())
    }

    /// Gives the bits to each of these places.
    pub fn hand_each(&mut self, places: &[u32], give: u64) -> Result<(), AllocError>
        requires rows { All (λ p. p < length self.old.rows.items) places.now }
        requires marks { length self.old.listed.items ≡ length self.old.rows.items }
        ensures { OnOk result (walk_of self.new ≡ fold (handed give) (walk_of self.old) places.now) }
    {
        for place in places {
            self.hand(*place as usize, give)?;
        }
        Ok(())
    }

    /// Takes the next place off the list.
    pub fn take(&mut self) -> Option<usize>
        requires { All (λ p. p < length self.old.listed.items) self.old.list.items }
        ensures { MatchOption result ((self.old.list.items ≡ []) × (self.new.rows.items ≡ self.old.rows.items)) (λ place. IsPopped place (walk_of self.old) (walk_of self.new)) }
    {
        let place = self.list.pop()?;
        self.listed[place] = false;
        Some(place)
    }
}
