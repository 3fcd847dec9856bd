ghost use Rattle.std.specs.Prelude.{◌≡◌};
ghost use Rattle.coordinator.specs.Allowing.{allows as allows_at};

use crate::kinds::Allowed;
use protocol::Stage;

impl Allowed {
    pub fn allows(self, stage: Stage) -> bool
        ensures { result ≡ allows_at self stage }
    {
        matches!(
            (self, stage),
            (Allowed::OnlyOpen, Stage::Open)
                | (Allowed::Undecided, Stage::Open | Stage::Polling)
                | (Allowed::Submitted, Stage::Polling | Stage::Decided(_))
                | (Allowed::AnyStage, _)
        )
    }
}
