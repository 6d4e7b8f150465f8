// Laws of records, which say nothing of code.
ghost use Rattle.dyl_section.specs.Laws.{OneRecordAnswer, SomeRecordAnswer, WrittenIsRecorded};

/// There is one thing to say of a module's record.
pub fn one_record_answer()
    ensures { OneRecordAnswer }
{}

/// There is something to say of it, whatever the module is.
pub fn some_record_answer()
    ensures { SomeRecordAnswer }
{}

/// What is written into a `dylink.0` section is the record of its module.
pub fn written_is_recorded()
    ensures { WrittenIsRecorded }
{}
