// What each gap of each device costs above the deepest sleep, worked out once before a search; with it from which length on that stays the same, from which on it no
// longer falls and to what it falls, and by how much one tick more changes it at most; and of each job its last start, and which devices it uses.
#![tactic(auto)]

ghost use Rattle.std.specs.Prelude.{◌≡◌, ◌+◌, ◌*◌, ◌<◌, ◌≤◌, length};
ghost use Rattle.extras.specs.inside.Tabled.{extra_at, cap_at, rise_at, fall_at, least_from};
ghost use Rattle.extras.specs.inside.Jobs.{used_count_at, last_at, used_at};

pub mod laying; // laying.rt: the table filled
mod jobs; // jobs.rt: the last start and the devices of each job
mod shape; // shape.rt: cap, rise, fall, foot and low, gap by gap

// The table is lent as rows of eight numbers, one for each device. The caps stand first; then, each from its place on, the steepest rises,
const RISES: usize = 8;

// the steepest falls,
const FALLS: usize = 16;

// the feet,
const FEET: usize = 24;

// what falls lead to at least,
const LOWS: usize = 32;

// how many devices each of sixteen jobs uses,
const COUNTS: usize = 40;

// the last start from which it meets its deadline,
const LASTS: usize = 56;

// which devices it uses, in a row a job,
const LISTS: usize = 72;

// and the extras of the gaps of no tick, of one tick and so on. So no place depends on the horizon: 208 + 8 * H numbers are enough, or 208 where there is no device.
const EXTRAS: usize = 200;

// The extra of a gap of g ticks.
#[tactic(auto, unfolding(crate::specs::inside::Tabled::extra_at))]
pub fn extra_of(extras: &[u32], k: usize, g: u32) -> u32
    requires { (k < 8) × ((g ≤ 4096) × (208 + 8 * g ≤ length extras.now)) }
    ensures { result ≡ extra_at extras.now k g }
{
    extras[EXTRAS + 8 * g as usize + k]
}

// From which length on the extra stays the same.
#[tactic(auto, unfolding(crate::specs::inside::Tabled::cap_at))]
pub fn cap_of(extras: &[u32], k: usize) -> u32
    requires { (k < 8) × (40 ≤ length extras.now) }
    ensures { result ≡ cap_at extras.now k }
{
    extras[k]
}

// By how much one tick more raises it at most.
#[tactic(auto, unfolding(crate::specs::inside::Tabled::rise_at))]
pub fn rise_of(extras: &[u32], k: usize) -> u32
    requires { (k < 8) × (40 ≤ length extras.now) }
    ensures { result ≡ rise_at extras.now k }
{
    extras[RISES + k]
}

// By how much it lowers it at most.
#[tactic(auto, unfolding(crate::specs::inside::Tabled::fall_at))]
pub fn fall_of(extras: &[u32], k: usize) -> u32
    requires { (k < 8) × (40 ≤ length extras.now) }
    ensures { result ≡ fall_at extras.now k }
{
    extras[FALLS + k]
}

// What no gap of g ticks or more has less than: from the foot on its own extra, and before it no more than what a fall leads to.
#[tactic(auto, unfolding(crate::specs::inside::Tabled::least_from, crate::specs::inside::Tabled::foot_at, crate::specs::inside::Tabled::low_at))]
pub fn least_from(extras: &[u32], k: usize, g: u32) -> u32
    requires { (k < 8) × ((g ≤ 4096) × (208 + 8 * g ≤ length extras.now)) }
    ensures { result ≡ least_from extras.now k g }
{
    let extra = extra_of(extras, k, g);
    if g < extras[FEET + k] {
        extra.min(extras[LOWS + k])
    } else {
        extra
    }
}

// How many devices job j uses.
#[tactic(auto, unfolding(crate::specs::inside::Jobs::used_count_at))]
pub fn used_count(extras: &[u32], j: usize) -> u32
    requires { (j < 16) × (208 ≤ length extras.now) }
    ensures { result ≡ used_count_at extras.now j }
{
    extras[COUNTS + j]
}

// The last start from which job j meets its deadline.
#[tactic(auto, unfolding(crate::specs::inside::Jobs::last_at))]
pub fn last_start(extras: &[u32], j: usize) -> u32
    requires { (j < 16) × (208 ≤ length extras.now) }
    ensures { result ≡ last_at extras.now j }
{
    extras[LASTS + j]
}

// The one of its devices before which there are i.
#[tactic(auto, unfolding(crate::specs::inside::Jobs::used_at))]
pub fn used_at(extras: &[u32], j: usize, i: u32) -> usize
    requires { (j < 16) × ((i < 8) × (208 ≤ length extras.now)) }
    ensures { result ≡ used_at extras.now j i }
{
    let device = &extras[LISTS + 8 * j + i as usize];
    *device as usize
}
