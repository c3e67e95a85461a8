// The loading of a job, and its line.
ghost use Rattle.std.specs.Prelude.{◌≡◌, ◌≤◌, ◌+◌, IfOk, IfErr, length};
ghost use Rattle.hull_report.specs.Spelling.{AreLines};
ghost use Rattle.loading_sheet.specs.Loads.{IsLoadingOf};
ghost use Rattle.hull_cli.specs.Loads.{IsLoadFirst};
ghost use Rattle.hull_cli.specs.Stops.{StopsLoad};

use crate::levers::load_line;
use exact_fraction::Memory;
use hull_report::Line;
use job_reader::Item;
use loading_sheet::{Loading, load};
use report_run::{Refusal, Stop};
use std::alloc::Global;

/// The loading of a job's items. Stops where they make none.
pub(crate) fn loading_of(items: &[Item]) -> Result<Loading, Stop>
    requires { length items.now ≤ 256 }
    ensures loading { IfOk result (IsLoadingOf items.now) }
    ensures stops { IfErr result (StopsLoad items.now) }
{
    match load(items) {
        Ok(loading) => Ok(loading),
        Err(fault) => Err(Stop::Refused(Refusal::Load(fault))),
    }
}

/// The line of a load, in the words of a job's version, and then these.
pub(crate) fn load_first(
    alloc: Global,
    version: u32,
    loading: &Loading,
    under: &[Line],
) -> Result<Vec<Line>, Memory>
    requires { AreLines under.now }
    ensures lines { IfOk result (λ lines. IsLoadFirst version loading.now under.now lines.items) }
    ensures count { IfOk result (λ lines. length lines.items ≡ 1 + length under.now) }
    ensures grammar { IfOk result (λ lines. AreLines lines.items) }
{
    let mut lines = Vec::new(alloc);
    lines.push(load_line(version, loading))?;
    lines.extend_from_slice(under)?;
    Ok(lines)
}
