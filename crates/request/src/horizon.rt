// The horizon, given or worked out. All above 4,096 is 4,097 here, so that it is worked out no further once it is refused.
ghost use Rattle.std.specs.Prelude.{◌≡◌, ℕ, ◌+◌, ◌*◌, ◌≤◌, ◌<◌, min};
ghost use Rattle.request.specs.Format.{lcm_from, horizon_of};
ghost use Rattle.request.specs.inside.Held.{SoundTasks};

use super::euclid;

// The least common multiple of the periods of the tasks whose records begin at a place.
fn task_horizon(s: &[u8], tasks: usize, from: usize) -> u32
    requires { SoundTasks s.now tasks from }
    ensures { result ≡ min (lcm_from s.now tasks from 1) 4097 }
{
    let mut h = 1;
    for i in 0..tasks {
        let period = base::pair_at(s, from + i * 5);
        h = euclid::lcm(h, u32::from(period));
        if 4096 < h {
            return 4097;
        }
    }
    h
}

// The horizon of a file with so many tasks: the least common multiple of their periods, or without tasks the file's first field.
pub fn horizon_of(s: &[u8], tasks: usize, from: usize) -> u32
    requires { SoundTasks s.now tasks from × (3 ≤ from) }
    ensures { result ≡ min (horizon_of s.now tasks from) 4097 }
{
    if tasks == 0 {
        u32::from(base::pair_at(s, 0)).min(4097)
    } else {
        task_horizon(s, tasks, from)
    }
}
