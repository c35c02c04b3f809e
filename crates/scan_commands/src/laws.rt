//! Laws of the passes over a device: each function's contract states the law, and a call of the function provides it.
ghost use Rattle.scan_commands.specs.Laws.{LostRunsAreUnrecovered, PlainPassesCallNothing, StatesAreMeant};

use image_files::Images;

/// A sector is in a reported run exactly if the last map doesn't mark it as recovered.
pub fn lost_runs_are_unrecovered<I: Images>()
    ensures { LostRunsAreUnrecovered I.relations I.Dev.state }
{}

/// If the backing devices are steady and never fail, passes that scrape and have no map file report a sector exactly if it means a fault, as
/// lost by that fault.
pub fn states_are_meant<I: Images>()
    ensures { StatesAreMeant I.relations I.Dev.state }
{}

/// Without a map file the opener isn't called, also if the passes end early.
pub fn plain_passes_call_nothing<I: Images>()
    ensures { PlainPassesCallNothing I.relations I.Dev.state }
{}
