//! Figures of what texts are read as, as contracts: a caller calls the function and has them.
ghost use Rattle.sc_forms.specs.Readings.{WorkedReadings};

/// What texts are read as where readers of JSON differ: numbers with a point, an exponent or the
/// sign of a zero, at 2^64 and past the greatest float; a member that stands twice; lists that nest
/// 127 and 128 deep.
pub fn worked_readings()
    ensures { WorkedReadings }
{}
