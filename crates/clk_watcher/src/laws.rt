//! What follows from the checks of a watchdog.
ghost use Rattle.clk_watcher.specs.Shown.{WatchedIsShown};

/// A watchdog that made all its checks shows what a lawful trace needs of it: tickets that rise, readings that are
/// right by the records that it saw, stable stamps with their offsets, and a demotion by the last of them, which lifts
/// each word once.
pub fn watched_is_shown()
    ensures { WatchedIsShown }
{}
