// The status of a report.
ghost use Rattle.std.specs.Prelude.{◌≡◌};
ghost use Rattle.hull_cli.specs.Verdicts.{MayReport, status_by, status_of};

use hull_report::{Call, Line};
use report_run::Status;

/// The status of a report: that of its verdict, and `Done` where it has none.
pub(crate) fn report_status(lines: &[Line]) -> Status
    ensures status { result ≡ status_of lines.now }
    ensures report { MayReport result }
{
    for line in lines {
        if let Line::Verdict { call } = line {
            return verdict_status(call);
        }
    }
    Status::Done
}

fn verdict_status(call: &Call) -> Status
    ensures status { result ≡ status_by call.now }
    ensures report { MayReport result }
{
    match call {
        Call::Pass => Status::Done,
        Call::Fail { .. } => Status::Fails,
        Call::Undecided { .. } => Status::Undecided,
    }
}
