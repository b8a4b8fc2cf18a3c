// Symbols as keys of a set. All their bytes are hashed in one write, where a list of bytes hashes one after another.

ghost use Rattle.std.specs.Prelude.{bytes_eq, [], ◌∷◌};
ghost use Rattle.std.specs.Cmp;
ghost use Rattle.std.specs.Cmp.{on_equiv, on_per};
ghost use Rattle.std.specs.Cmp.Lexicographic.{bytes_decides, nat_list_eq_equiv};
ghost use Rattle.std.proofs.Common.{ap};

use indexmap::Equivalent;
use std::hash::{Hash, Hasher};

/// A symbol that is lent.
#[derive(Clone, Copy)]
pub struct BorrowedKey<'a> {
    pub bytes: &'a [u8],
}

impl PartialEq for BorrowedKey<'_> {
    ghost eq = { λ x y. bytes_eq x.bytes.now y.bytes.now };

    ghost laws = { on_per (λ x. x.bytes.now) (Cmp.partial_equiv_from_equiv nat_list_eq_equiv) };

    fn eq(&self, other: &Self) -> bool {
        self.bytes == other.bytes
    }
}

impl Eq for BorrowedKey<'_> {
    ghost laws = { on_equiv (λ x. x.bytes.now) nat_list_eq_equiv };
}

impl Hash for BorrowedKey<'_> {
    ghost hash_input = { λ x. x.bytes.now ∷ [] };

    ghost respects_eq = { λ x y h. ap (λ bytes. bytes ∷ []) ((bytes_decides x.bytes.now y.bytes.now).0 h) };

    fn hash<H: Hasher>(&self, state: &mut H) {
        state.write(self.bytes);
    }
}

/// A symbol that the set keeps.
#[derive(Drop)]
pub struct OwnedKey {
    pub bytes: Vec<u8>,
}

impl PartialEq for OwnedKey {
    ghost eq = { λ x y. bytes_eq x.bytes.items y.bytes.items };

    ghost laws = { on_per (λ x. x.bytes.items) (Cmp.partial_equiv_from_equiv nat_list_eq_equiv) };

    fn eq(&self, other: &Self) -> bool {
        self.bytes.as_slice() == other.bytes.as_slice()
    }
}

impl Eq for OwnedKey {
    ghost laws = { on_equiv (λ x. x.bytes.items) nat_list_eq_equiv };
}

impl Hash for OwnedKey {
    ghost hash_input = { λ x. x.bytes.items ∷ [] };

    ghost respects_eq = { λ x y h. ap (λ bytes. bytes ∷ []) ((bytes_decides x.bytes.items y.bytes.items).0 h) };

    fn hash<H: Hasher>(&self, state: &mut H) {
        state.write(self.bytes.as_slice());
    }
}

impl<'b> Equivalent<BorrowedKey<'b>> for BorrowedKey<'_> {
    ghost equivalent = { λ q k. bytes_eq q.bytes.now k.bytes.now };

    ghost respects_hash = { λ q k h. ap (λ bytes. bytes ∷ []) ((bytes_decides q.bytes.now k.bytes.now).0 h) };

    ghost respects_eq = { λ q x y. nat_list_eq_equiv.congr q.bytes.now x.bytes.now y.bytes.now };

    fn equivalent(&self, key: &BorrowedKey<'b>) -> bool {
        self.bytes == key.bytes
    }
}

impl Equivalent<OwnedKey> for BorrowedKey<'_> {
    ghost equivalent = { λ q k. bytes_eq q.bytes.now k.bytes.items };

    ghost respects_hash = { λ q k h. ap (λ bytes. bytes ∷ []) ((bytes_decides q.bytes.now k.bytes.items).0 h) };

    ghost respects_eq = { λ q x y. nat_list_eq_equiv.congr q.bytes.now x.bytes.items y.bytes.items };

    fn equivalent(&self, key: &OwnedKey) -> bool {
        self.bytes == key.bytes.as_slice()
    }
}
