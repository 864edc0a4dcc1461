//! Laws of the definitions.

ghost use Rattle.std.specs.Prelude.{◌≡◌, List};
ghost use Rattle.run_journal.specs.declared.acts.Entry.{Entry};
ghost use Rattle.run_journal.specs.Alike.{AlikeJournals};
ghost use Rattle.run_journal.specs.Report.{lines};

/// The lines of a report show no key: journals that differ in keys and their inputs, in drawn
/// values and in seals alone have the same lines.
pub fn lines_read_no_key()
    ensures { (j k : List Entry) → AlikeJournals j k → lines j ≡ lines k }
{}
