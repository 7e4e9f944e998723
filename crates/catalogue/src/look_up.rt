// The parts of a catalogue, 15 bytes each: 8 of part number, then 7 of device record.
ghost use Rattle.std.specs.Prelude.{◌≡◌, true, false, map, length};
ghost use Rattle.tables.specs.Records.{first_at};
ghost use Rattle.base.specs.Bytes.{pieces};
ghost use Rattle.catalogue.specs.Parts.{parts_of, numbers, has, unfit, repeated, lacking, record_of};
ghost use Rattle.catalogue.specs.inside.Places.{SoughtOf};
ghost use Rattle.catalogue.specs.Building.{devices_of};
ghost use Rattle.catalogue.specs.Faults.{FirstOf, unfit_at, repeated_at, lacking_at};

use crate::numbers::is_formed;
use tables::{DeviceRecord, DeviceTable, Table, blank_device, first_at};

// The first part that has this number.
fn find(catalogue: &[u8], number: &[u8]) -> Option<usize>
    ensures { SoughtOf catalogue.now number.now result }
{
    for k in 0..catalogue.len() / 15 {
        let at = 15 * k;
        if number.len() == 8 && number.starts_with(&catalogue[at..at + 8]) {
            return Some(k);
        }
    }
    None
}

// 21: the first part with a number that has a bad character or bad padding, that is cut short, or that has 64 before it.
pub(crate) fn unfit_at(catalogue: &[u8]) -> Option<usize>
    ensures { FirstOf (length (parts_of catalogue.now)) (unfit_at (parts_of catalogue.now)) result }
{
    let count = catalogue.len() / 15;
    for k in 0..count {
        let at = 15 * k;
        if k >= 64 || !is_formed(&catalogue[at..at + 8]) {
            return Some(k);
        }
    }
    if catalogue.len() % 15 == 0 {
        None
    } else {
        Some(count)
    }
}

pub fn is_unfit(catalogue: &[u8]) -> bool
    ensures { result ≡ unfit (parts_of catalogue.now) }
{
    unfit_at(catalogue).is_some()
}

// 22: the first part that has the number of one before it.
pub fn repeated_at(catalogue: &[u8]) -> Option<usize>
    requires { unfit (parts_of catalogue.now) ≡ false }
    ensures { FirstOf (length (parts_of catalogue.now)) (repeated_at (parts_of catalogue.now)) result }
{
    for k in 0..catalogue.len() / 15 {
        let at = 15 * k;
        if find(&catalogue[..at], &catalogue[at..at + 8]).is_some() {
            return Some(k);
        }
    }
    None
}

pub fn is_repeated(catalogue: &[u8]) -> bool
    requires { unfit (parts_of catalogue.now) ≡ false }
    ensures { result ≡ repeated (numbers (parts_of catalogue.now)) }
{
    repeated_at(catalogue).is_some()
}

// 23: the first wanted number that no part has, and a last piece under 8 bytes is none.
pub(crate) fn lacking_at(catalogue: &[u8], wanted: &[u8]) -> Option<usize>
    requires { unfit (parts_of catalogue.now) ≡ false }
    ensures { FirstOf (length (pieces 8 wanted.now)) (lacking_at (parts_of catalogue.now) (pieces 8 wanted.now)) result }
{
    let count = wanted.len() / 8;
    for k in 0..count {
        let at = 8 * k;
        if find(catalogue, &wanted[at..at + 8]).is_none() {
            return Some(k);
        }
    }
    if wanted.len() % 8 == 0 {
        None
    } else {
        Some(count)
    }
}

// The record of the part that has this number.
fn record_of(catalogue: &[u8], number: &[u8]) -> DeviceRecord
    requires { (unfit (parts_of catalogue.now) ≡ false) × (has (numbers (parts_of catalogue.now)) number.now ≡ true) }
    ensures { result ≡ first_at (record_of (parts_of catalogue.now) number.now) 0 }
{
    let k = find(catalogue, number).unwrap();
    first_at(catalogue, 15 * k + 8)
}

// The records of the wanted parts, in the order in which they are wanted.
pub(crate) fn devices_of(catalogue: &[u8], wanted: &[u8]) -> DeviceTable
    requires { (unfit (parts_of catalogue.now) ≡ false) × (lacking (parts_of catalogue.now) (pieces 8 wanted.now) ≡ false) }
    ensures { result ≡ devices_of (map (record_of (parts_of catalogue.now)) (pieces 8 wanted.now)) }
{
    let count = wanted.len() / 8;
    let mut devices = Table {
        count,
        list: [blank_device(); 8],
    };
    // A table has room for eight.
    for k in 0..count.min(8) {
        let at = 8 * k;
        devices.list[k] = record_of(catalogue, &wanted[at..at + 8]);
    }
    devices
}
