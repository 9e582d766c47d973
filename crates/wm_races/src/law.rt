//! A law about the definitions.
ghost use Rattle.wm_races.specs.Report.{OneReport};

/// An execution has one list of races, and one report for a given table of sites. It computes nothing.
pub fn one_race_report()
    ensures { OneReport }
{}
