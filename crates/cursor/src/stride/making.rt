//! The making of a stride, which may be refused.
ghost use Rattle.std.specs.Prelude.{◌≡◌};
ghost use Rattle.cursor.specs.NonZero.{stride_of, one_stride, stride_number};

use crate::stride::{Stride, StrideFault};
use refusal::Refusal;

impl Stride {
    /// A stride of so many steps; 0 is refused.
    pub fn new(steps: u64) -> Result<Stride, StrideFault>
        ensures { result ≡ stride_of steps }
    {
        if steps == 0 {
            Err(StrideFault::Zero)
        } else {
            Ok(Stride { steps })
        }
    }

    /// The stride that leaves no item out.
    #[tactic(auto, using(crate::proofs::NonZero::same_stride))]
    pub fn one() -> Stride
        ensures { result ≡ one_stride }
    {
        Stride { steps: 1 }
    }

    /// The number of steps.
    // Named as in NonZero, so no `From`.
    pub fn get(self) -> u64
        ensures { result ≡ self.steps }
    {
        self.steps
    }
}

impl Refusal for StrideFault {
    ghost number = { stride_number };

    fn number(self) -> u8 {
        self as u8
    }
}
