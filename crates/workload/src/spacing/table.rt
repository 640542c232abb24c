ghost use Rattle.workload.specs.Spacing.{AllSteady};

use super::placement::Placement;

/// The record of each host. Both floats of each are finite and not negative.
#[derive(Clone, Copy)]
pub struct Table {
    pub hosts: [Placement; 8],
    ghost steady: { AllSteady hosts },
}
