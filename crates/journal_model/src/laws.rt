//! A theorem about the definitions: a function with nothing to run.

ghost use Rattle.journal_model.specs.Rows.{AreMarksWorked, AreMigrationsWorked, AreRecordsWorked};

/// Images that were worked out by hand: a gate while it is written, marks, a file while it is migrated, and what makes a file no
/// journal, in both versions.
pub fn worked_records()
    ensures records { AreRecordsWorked }
    ensures marks { AreMarksWorked }
    ensures migrations { AreMigrationsWorked }
{}
