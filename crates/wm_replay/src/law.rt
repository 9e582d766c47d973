//! What holds of positions by their definition.
ghost use Rattle.wm_replay.specs.Positions.{OnePosition};

/// A thread makes an event of its log at one position of the code.
pub fn one_position()
    ensures { OnePosition }
{}
