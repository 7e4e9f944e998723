// The whole visit, and what it is lent: the table of extras, and a memory, where a few vertices do not suffice.
ghost use Rattle.std.specs.Prelude.{◌≡◌, min, length};
ghost use Rattle.schedule.specs.Quantities.{Valid};
ghost use Rattle.flat.specs.inside.Flat.{recorder_of};
ghost use Rattle.extras.specs.inside.Tabled.{Room, Tabled};
ghost use Rattle.visit.specs.inside.Stops.{visited_by};
ghost use Rattle.visit.specs.inside.Lent.{Lends, Ran, KeptWithin};

use crate::tally::{Tally, begin, is_over};
use crate::walk::root_visit;
use extras::laying::lay_extras;
use flat::Flat;
use stored::clear;

// So many vertices are visited without a memory.
const FEW: u32 = 256;

// That the budget is used up.
#[derive(Clone, Copy, PartialEq, Eq)]
pub struct Spent;

// The whole visit, from nothing counted. The tally is lent, here and below: handed up as a result it would take its room on the stack once more at each stage.
fn whole_visit(
    r: &Flat,
    extras: &[u32],
    memory: &mut [u64],
    tally: &mut Tally,
    stop: bool,
    budget: u32,
) -> Result<(), Spent>
    requires { Lends (recorder_of r.now) extras.now memory.old }
    ensures { Ran (recorder_of r.now) stop budget tally.new result }
{
    *tally = begin(stop);
    let ended = root_visit(r, extras, memory, tally, budget);
    if is_over(tally, ended) {
        Err(Spent)
    } else {
        Ok(())
    }
}

// The same with a memory that is lent, whatever it holds.
fn lent_visit(
    r: &Flat,
    extras: &[u32],
    memory: &mut [u64],
    tally: &mut Tally,
    stop: bool,
    budget: u32,
) -> Result<(), Spent>
    requires { Tabled (recorder_of r.now) extras.now }
    ensures { Ran (recorder_of r.now) stop budget tally.new result }
{
    clear(memory);
    whole_visit(r, extras, memory, tally, stop, budget)
}

// The same with a memory of its own, of 2,048 entries of six words.
fn own_visit(
    r: &Flat,
    extras: &[u32],
    tally: &mut Tally,
    stop: bool,
    budget: u32,
) -> Result<(), Spent>
    requires { Tabled (recorder_of r.now) extras.now }
    ensures { Ran (recorder_of r.now) stop budget tally.new result }
{
    let mut memory = [0u64; 12288];
    whole_visit(r, extras, &mut memory, tally, stop, budget)
}

// The same without one, under a budget of few vertices.
fn few_visit(
    r: &Flat,
    extras: &[u32],
    tally: &mut Tally,
    stop: bool,
    budget: u32,
) -> Result<(), Spent>
    requires { Tabled (recorder_of r.now) extras.now }
    ensures { Ran (recorder_of r.now) stop (min budget 256) tally.new result }
{
    let mut none = [0u64; 1];
    whole_visit(r, extras, &mut none, tally, stop, budget.min(FEW))
}

// The same: without a memory first, since to forget one takes longer than a few vertices; with one where these do not suffice and the budget has more, its own or the
// one that is lent, which is written to nowhere else.
fn staged_visit(
    r: &Flat,
    extras: &[u32],
    memory: &mut [u64],
    own: bool,
    tally: &mut Tally,
    stop: bool,
    budget: u32,
) -> Result<(), Spent>
    requires { Tabled (recorder_of r.now) extras.now }
    ensures ran { Ran (recorder_of r.now) stop budget tally.new result }
    ensures within { KeptWithin (min budget (visited_by (recorder_of r.now) stop).count) memory.old memory.new }
{
    let few = few_visit(r, extras, tally, stop, budget);
    if few.is_ok() || budget <= FEW {
        return few;
    }
    if own {
        return own_visit(r, extras, tally, stop, budget);
    }
    lent_visit(r, extras, memory, tally, stop, budget)
}

// The same with the table of extras laid first, in the place that is lent for it.
pub fn laid_visit(
    r: &Flat,
    extras: &mut [u32],
    memory: &mut [u64],
    own: bool,
    tally: &mut Tally,
    stop: bool,
    budget: u32,
) -> Result<(), Spent>
    requires { Valid (recorder_of r.now) × Room (recorder_of r.now) extras.old }
    ensures ran { Ran (recorder_of r.now) stop budget tally.new result }
    ensures within { KeptWithin (min budget (visited_by (recorder_of r.now) stop).count) memory.old memory.new }
{
    lay_extras(r, extras);
    staged_visit(r, extras, memory, own, tally, stop, budget)
}
