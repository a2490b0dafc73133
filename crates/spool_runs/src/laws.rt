//! What holds of all lists of runs over one spool.
ghost use Rattle.std.specs.Prelude.{List, []};
ghost use Rattle.std.specs.List.{AllByRecursion};
ghost use Rattle.fw_disk.specs.DiskView.{DiskView};
ghost use Rattle.slot_bytes.specs.Layout.{Mail};
ghost use Rattle.spool_law.specs.Events.{after_all};
ghost use Rattle.spool_law.specs.Safe.{IsSafe};
ghost use Rattle.spool_law.specs.World.{World, formatted};
ghost use Rattle.spool_runs.specs.History.{AreSafe, Episode, Happens, accepted_of, answered_of};
ghost use Rattle.spool_runs.specs.OnDisks.{AreOn, IsNew, IsReachable, RunsSpool, SpoolRun};

/// Whatever list of runs there was over slots that were formatted, with crashes between them and behind some first of a run's
/// events: each message that was answered for stands whole or was accepted (`safe`). Those are just the messages that the runs
/// answered for, in order, one of its own for each; of a run that a crash cut off as many of the first as there are answers among
/// the events that came; and those that were accepted are just the runs' (`mails`). What the next run meets was reached by events (`reached`).
pub fn answered_stands()
    ensures safe { (episodes : List Episode) (w : World) → Happens episodes formatted w → IsSafe w }
    ensures mails { (episodes : List Episode) (w : World) (h : Happens episodes formatted w) →
        AreSafe (answered_of episodes formatted w h) (accepted_of episodes formatted w h) w }
    ensures reached { (episodes : List Episode) (w : World) → Happens episodes formatted w → IsReachable w }
{
    spool_law::laws::stands()
}

/// Behind a run that no crash cut off the spool's slots are those on the disks that it left.
pub fn a_run_leaves_its_spool()
    ensures { (answered accepted : List Mail) (old new : List DiskView) (w : World) (run : SpoolRun answered accepted old new w)
        → AreOn 0 w old → AreOn 0 (after_all run.events w) new }
{}

/// A list of runs begins over disks whose slots were formatted.
pub fn new_slots_are_a_spool()
    ensures { (disks : List DiskView) → AllByRecursion IsNew disks → AreOn 0 formatted disks }
{}

/// A run that leaves the disks as they were does nothing to a spool.
pub fn disks_that_stay_are_no_run()
    ensures { (disks : List DiskView) → RunsSpool [] [] disks disks }
{}
