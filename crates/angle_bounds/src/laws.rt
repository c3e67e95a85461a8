// Theorems about the definitions, each the contract of a function with an empty body.
ghost use Rattle.angle_bounds.specs.Degrees.{PowersAreCounted, DegreesRise, NumbersRise, NumbersPartDegrees, NumbersStandApart};
ghost use Rattle.angle_bounds.specs.Directions.{DirectionsAreOrdered, SpansContainEachDirection, SpansAreLeast};

/// Of any two directions one is at most the other, and what is at most a second that is at most a third is at most the
/// third.
pub fn directions_are_ordered()
    ensures { DirectionsAreOrdered }
{}

/// The cosine and the sine of each direction in a bracket, of any numbers, lie in the bracket's spans.
pub fn spans_contain_each_direction()
    ensures { SpansContainEachDirection }
{}

/// No span that contains the cosine of each direction in a bracket is narrower than the bracket's; nor for the sine.
pub fn spans_are_least()
    ensures { SpansAreLeast }
{}

/// The counted powers of a direction are its powers, turned back by as many quarters as were counted, and lie in the
/// first quarter.
pub fn powers_are_counted()
    ensures { PowersAreCounted }
{}

/// Of two directions the greater is at least as many degrees, and the lesser at most as many.
pub fn degrees_rise()
    ensures { DegreesRise }
{}

/// The numbers up to 2^24 give directions, which rise with the number.
pub fn numbers_rise()
    ensures { NumbersRise }
{}

/// Between 0 and 90 degrees, no direction up to that of the number of `k` is at least `k` degrees, and each from the
/// next number's on is more than `k` degrees. The number of 0 degrees is 0, and that of 90 is 2^24.
pub fn numbers_part_degrees()
    ensures { NumbersPartDegrees }
{}

/// More than one number lies between those of a degree and the next.
pub fn numbers_stand_apart()
    ensures { NumbersStandApart }
{}
