// A theorem about the made ship, the contract of a function with an empty body.
ghost use Rattle.std.specs.Prelude.{◌≤◌, ◌<◌, ◌^◌};
ghost use Rattle.job_reader.specs.declared.job.Job.{Job};
ghost use Rattle.loading_sheet.specs.Sums.{total_mass};
ghost use Rattle.hull_maker.specs.MadeJob.{IsMadeJob};
ghost use Rattle.hull_maker.specs.MadeShip.{MadeShipFloats};

/// The made job's items make a loading, and the hull of no seed is too small for it.
pub fn the_made_ship_floats()
    ensures loads { (job : Job) → IsMadeJob job → (0 < total_mass job.items) × (total_mass job.items ≤ 2 ^ 36) }
    ensures floats { MadeShipFloats }
{}
