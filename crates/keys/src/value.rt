// The values beside keys, each with a status.
ghost use Rattle.std.specs.Prelude.{◌≡◌, ℕ};
ghost use Rattle.keys.specs.Values.{with_status};

use std::fmt;

pub trait HasStatus {
    ghost code: { Self → ℕ };

    fn status(&self) -> u8
        ensures { result ≡ code self.now };
}

// The status of a value that is not available. A status is the recorder's own byte, and the others are printed as they came, so it stays a
// number and is no `Option` around the value.
pub const NOT_AVAILABLE: u8 = 255;

// A number with its status.
#[derive(Clone, Copy, Debug, PartialEq, Eq)]
pub struct Measured<N> {
    pub value: N,
    pub status: u8,
}

// The value beside a sample: what was read.
pub type Reading = Measured<i32>;

// The value beside a page: its length.
pub type Extent = Measured<u32>;

impl<N> HasStatus for Measured<N> {
    ghost code = { λ m. m.status };

    fn status(&self) -> u8 {
        self.status
    }
}

// The number, a blank, the status.
impl<N: fmt::Display> fmt::Display for Measured<N> {
    ghost output = { λ m. with_status (N.Display.output m.value) m.status };

    fn fmt<W: fmt::Write>(&self, f: &mut fmt::Formatter<W>) -> fmt::Result {
        write!(f, "{} {}", self.value, self.status)
    }
}
