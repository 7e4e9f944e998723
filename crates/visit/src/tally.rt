// What a visit has come to, and the starts on its way.
ghost use Rattle.std.specs.Prelude.{◌≡◌, true, cond, ◌+◌, ◌<◌, ◌≤◌, eqb, is_err};
ghost use Rattle.visit.specs.inside.Lent.{begun, Long, more_counted, noted, stop_at, Added, Over};
ghost use Rattle.visit.specs.inside.Offers.{Offered};

// That a visit goes no further: the budget is used up, or what it stops at is found.
#[derive(Clone, Copy, PartialEq, Eq)]
pub struct Stopped;

// The vertices counted, the energy of the best so far, the starts of the jobs that are placed and those of the best, by job number, and whether the visit ends at the
// first complete vertex.
#[derive(Clone, Copy)]
pub struct Tally {
    pub count: u32,
    pub energy: u32,
    pub placed: [u32; 16],
    pub best: [u32; 16],
    pub stop: bool,
}

// The energy where there is no best: more than any, so that one comparison tells whether another is below it. (An option would have to become this number at each.)
pub const NONE: u32 = 4294967295;

// Nothing is counted, and there is no best.
pub fn begin(stop: bool) -> Tally
    ensures { result ≡ begun stop }
{
    Tally {
        count: 0,
        energy: NONE,
        placed: [0; 16],
        best: [0; 16],
        stop,
    }
}

// One vertex more.
pub fn count_one(tally: &mut Tally)
    requires { tally.old.count < 4294967295 }
    ensures { tally.new ≡ more_counted 1 tally.old }
{
    tally.count += 1;
}

// So many vertices more, if the budget has them.
pub fn add_count(tally: &mut Tally, budget: u32, n: u32) -> Result<(), Stopped>
    requires { tally.old.count ≤ budget }
    ensures { Added budget n tally.old tally.new (is_err result) }
{
    if budget - tally.count < n {
        return Err(Stopped);
    }
    tally.count += n;
    Ok(())
}

// Job j starts at s.
pub fn note(tally: &mut Tally, j: usize, s: u32)
    requires { j < 16 }
    ensures { tally.new ≡ noted j s tally.old }
{
    tally.placed[j] = s;
}

// A complete vertex of energy e, whose starts stand in the tally, takes the place of the best, unless that has no more energy (rules 44 and 47).
pub fn offer(tally: &mut Tally, e: u32)
    requires { Long tally.old }
    ensures { Offered e tally.old tally.new }
{
    if tally.energy <= e {
        return;
    }
    tally.best = tally.placed;
    tally.energy = e;
}

// Goes on after a complete vertex, unless the visit ends at one.
pub fn go_on(tally: &Tally) -> Result<(), Stopped>
    ensures { is_err result ≡ eqb (stop_at tally.now) 1 }
{
    if tally.stop { Err(Stopped) } else { Ok(()) }
}

// Whether it is for the budget that a visit went no further, and not for what it found.
pub fn is_over(tally: &Tally, ended: Result<(), Stopped>) -> bool
    ensures { Over tally.now (is_err ended) result }
{
    match ended {
        Ok(()) => false,
        Err(Stopped) => {
            if tally.stop {
                tally.energy == NONE
            } else {
                true
            }
        }
    }
}
