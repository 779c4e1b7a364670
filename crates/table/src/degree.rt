// A degree of the table.
ghost use Rattle.std.specs.Prelude.{◌≡◌};
ghost use Rattle.table.specs.Block.{made_degree};

// The field is private: from_byte is the only way to make one.
#[derive(Clone, Copy, PartialEq, Eq, PartialOrd, Ord)]
pub struct Degree(u8);

impl Degree {
    pub const LEAST: Degree = Degree(1);

    pub const MOST: Degree = Degree(40);

    // The degree of a record byte, or none.
    pub fn from_byte(b: u8) -> Option<Degree>
        ensures { result ≡ made_degree b }
    {
        if (Degree::LEAST.0 <= b) & (b <= Degree::MOST.0) {
            Some(Degree(b))
        } else {
            None
        }
    }
}

// The highest degree as a number.
pub const MAX_DEGREE: usize = Degree::MOST.0 as usize;
