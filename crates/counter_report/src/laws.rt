ghost use Rattle.counter_report.specs.Journals.{DistinctJournals};
ghost use Rattle.counter_report.specs.Worked.{WorkedReports, WorkedTexts};

/// No two journals have one text.
pub fn distinct_journals_have_distinct_texts()
    ensures { DistinctJournals }
{}

/// The definitions give for journals what was worked out by hand.
pub fn worked_journals()
    ensures texts { WorkedTexts }
    ensures reports { WorkedReports }
{}
