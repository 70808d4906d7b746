ghost use Rattle.std.specs.Prelude.{◌≡◌};
ghost use Rattle.cd_message.specs.Shapes;

// What RDATA holds: so many bytes, then so many names, then so many bytes.
#[derive(Clone, Copy)]
pub struct Shape {
    pub before: usize,
    pub names: usize,
    pub after: usize,
    // Whether the names are compressed where a message is written (RFC 3597 section 4).
    pub compressed: bool,
}

impl Shape {
    fn new(before: usize, names: usize, after: usize, compressed: bool) -> Shape
        ensures { Some result ≡ Shapes.shape before names after compressed }
    {
        Shape {
            before,
            names,
            after,
            compressed,
        }
    }
}

// The shape of the RDATA of a type, if it holds names.
#[tactic(auto, unfolding(crate::specs::Shapes::shape_of))]
pub fn shape_of(rtype: u16) -> Option<Shape>
    ensures { result ≡ Shapes.shape_of rtype }
{
    match rtype {
        // NS, MD, MF, CNAME, MB, MG, MR, PTR
        2 | 3 | 4 | 5 | 7 | 8 | 9 | 12 => Some(Shape::new(0, 1, 0, true)),
        // SOA
        6 => Some(Shape::new(0, 2, 20, true)),
        // MINFO
        14 => Some(Shape::new(0, 2, 0, true)),
        // MX
        15 => Some(Shape::new(2, 1, 0, true)),
        // RP
        17 => Some(Shape::new(0, 2, 0, false)),
        // AFSDB, RT
        18 | 21 => Some(Shape::new(2, 1, 0, false)),
        // PX
        26 => Some(Shape::new(2, 2, 0, false)),
        // SRV
        33 => Some(Shape::new(6, 1, 0, false)),
        _ => None,
    }
}
