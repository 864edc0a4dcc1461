//! Laws of lines. The functions do nothing; their contracts are proved.

ghost use Rattle.run_journal.specs.declared.acts.Entry.{Entry};
ghost use Rattle.entry_lines.specs.Entries.{Fits, HasLine, SpellsEntry, bare};
ghost use Rattle.entry_lines.specs.Lines.{entry_line};

/// The line that is written of an entry is the line of that entry as a line tells it: so it is what
/// is read of it.
pub fn written_lines_read_back()
    ensures { (e : Entry) → HasLine e.act → Fits e → SpellsEntry (entry_line e) (bare e) }
{}
