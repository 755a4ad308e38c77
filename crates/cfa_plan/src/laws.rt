// What holds of an overlay, each the contract of a function that changes nothing.
ghost use Rattle.cfa_plan.specs.OverlayChanges.{OverlaysKeepChanges};
ghost use Rattle.cfa_plan.specs.OverlayLooks.{OverlaysShowLooks, OverlaysBeginAsHosts, DirectoriesAreEmptyWithoutChildren};

/// Where nothing was changed, the host shows.
pub fn overlays_begin_as_hosts()
    ensures { OverlaysBeginAsHosts }
{}

/// What a look shows, by what is kept and by what a look at the host shows.
pub fn overlays_show_looks()
    ensures { OverlaysShowLooks }
{}

/// A change of what is kept is that change of what shows.
pub fn overlays_keep_changes()
    ensures { OverlaysKeepChanges }
{}

/// Something stands below a path exactly where something stands directly in it.
pub fn directories_are_empty_without_children()
    ensures { DirectoriesAreEmptyWithoutChildren }
{}
