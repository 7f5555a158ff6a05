//! Laws of what is shown: functions that do nothing, whose contracts are the laws.
ghost use Rattle.live_trace.specs.SiteText.{UpdatedSitesAreWanted};

/// After a live run the lines of the sites are those of what the sites want after all updates of the script.
pub fn updated_sites_are_wanted()
    ensures { UpdatedSitesAreWanted }
{}
