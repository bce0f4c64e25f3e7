//! What a turn of a run comes to.

use crate::stops::RunStop;
use flow_points::Flow;
use rv_step::StepRec;

/// The run stops, or the machine made a step at the point of this number, whose flow is given.
#[derive(Clone, Copy, Debug, PartialEq, Eq)]
pub(crate) enum Outcome {
    Stopped(RunStop),
    Made(u32, Flow, StepRec),
}
