// Laws of gathering, which say nothing of code.
ghost use Rattle.dyl_search.specs.Laws.{GivesOne};

/// Files and options give one set or one first fault, and the paths that are listed with it are those that are tried.
pub fn files_give_one_answer()
    ensures { GivesOne }
{
    spec_reading::reading_answers();
    dyl_section::one_record_answer();
    dyl_section::some_record_answer();
    spec_linking::one_gathered();
    spec_linking::some_gathered();
    spec_linking::tried_are_listed();
}
