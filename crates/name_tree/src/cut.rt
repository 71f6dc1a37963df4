//! Where a tree is divided.
ghost use Rattle.std.specs.Prelude.{◌≡◌, ◌-◌, ◌+◌, ◌/◌};
ghost use Rattle.name_tree.specs.Cuts.{IsCut};

/// Keys below `at` lie on the low side, the others on the high side. Either side is divided `step` further.
#[derive(Clone, Copy, Debug, PartialEq, Eq)]
pub struct Cut {
    pub at: u64,
    pub step: u64,
}

impl Cut {
    // Where the low side is divided.
    pub(crate) fn low(self) -> Cut
        requires { IsCut self.at self.step }
        ensures at { result.at ≡ self.at - self.step }
        ensures step { result.step ≡ self.step / 2 }
        ensures cut { IsCut result.at result.step }
    {
        Cut {
            at: self.at - self.step,
            step: self.step / 2,
        }
    }

    // Where the high side is divided.
    pub(crate) fn high(self) -> Cut
        requires { IsCut self.at self.step }
        ensures at { result.at ≡ self.at + self.step }
        ensures step { result.step ≡ self.step / 2 }
        ensures cut { IsCut result.at result.step }
    {
        Cut {
            at: self.at + self.step,
            step: self.step / 2,
        }
    }
}
