// What is kept beside the entries, where an entry comes.

ghost use Rattle.std.specs.Prelude.{◌≡◌, suc, nat_eq};
ghost use Rattle.asm_unit.specs.UnitFields.{lead_power, power_behind, leads_with, owner_between};

use crate::decide::DecidedFunction;
use crate::held_list::HeldList;
use crate::layout::{full_power, leads};
use crate::next::owner_of;
use insn_ir::EntryKind;
use jump_tables::class_of;

/// The power that an entry of this kind has in a lead. None where it may stand in none.
pub fn lead_power(kind: &EntryKind) -> Option<u8>
    ensures { result ≡ lead_power kind.now }
{
    let class = class_of(kind);
    if leads(class) {
        Some(full_power(class, kind))
    } else {
        None
    }
}

// The base power of a function, where an entry with such a power comes directly before its label.
fn power_behind(base: u8, power: Option<u8>) -> u8
    ensures { result ≡ power_behind base power }
{
    match power {
        Some(power) => base.max(power),
        None => 0,
    }
}

// Whether the label at an index of the file as it was read has this serial.
fn is_label(index: usize, serial: u32) -> bool
    ensures { result ≡ nat_eq (suc index) serial }
{
    match (serial as usize).checked_sub(1) {
        Some(place) => index == place,
        None => false,
    }
}

/// An entry with such a power comes directly before that of a serial, which stands in the code of the function of a number,
/// from 1. Where that is its label, the function's base power follows.
pub fn lead_on(functions: &mut Vec<DecidedFunction>, owner: usize, before: u32, power: Option<u8>)
    ensures { functions.new.items ≡ leads_with 0 owner before power functions.old.items }
{
    let Some(place) = owner.checked_sub(1) else {
        return;
    };
    if place >= functions.len() {
        return;
    }
    if is_label(functions[place].bounds.label, before) {
        let base = power_behind(functions[place].bounds.base, power);
        functions[place].bounds.base = base;
    }
}

/// The owner of an entry that comes directly before that of a serial: the owner of both its neighbours, if they have the same.
pub fn owner_between(held: &HeldList, owners: &[usize], before: u32) -> usize
    ensures { result ≡ owner_between held.now.held owners.now before }
{
    let owner = owner_of(owners, before);
    let Some(prev) = held.prev(before) else {
        return 0;
    };
    if owner_of(owners, prev) == owner {
        owner
    } else {
        0
    }
}
