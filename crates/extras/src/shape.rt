// What is read off the extras of a device while they are laid, gap by gap.
ghost use Rattle.std.specs.Prelude.{◌≡◌};
ghost use Rattle.extras.specs.inside.Shapes.{shape_with};

// Of the gaps up to some length: from which on they have the same extra, by how much one tick more raises it and lowers it at most, from which on it no longer falls,
// and to what it falls at least.
#[derive(Clone, Copy)]
pub struct Shape {
    pub cap: u32,
    pub rise: u32,
    pub fall: u32,
    pub foot: u32,
    pub low: u32,
}

impl Shape {
    // Of no gap. Where no extra has fallen, low is what min starts from: no Option, since the table holds numbers and takes the min with this one.
    pub const NONE: Shape = Shape {
        cap: 0,
        rise: 0,
        fall: 0,
        foot: 0,
        low: u32::MAX,
    };
}

// The same with the gap of g ticks, whose extra is y, that of the gap before it x.
#[tactic(auto, unfolding(crate::specs::inside::Shapes::shape_with))]
pub fn shape_with(s: Shape, g: u32, x: u32, y: u32) -> Shape
    ensures { result ≡ shape_with s g x y }
{
    if x < y {
        Shape {
            cap: g,
            rise: s.rise.max(y - x),
            ..s
        }
    } else if y < x {
        Shape {
            cap: g,
            fall: s.fall.max(x - y),
            foot: g,
            low: s.low.min(y),
            ..s
        }
    } else {
        s
    }
}
