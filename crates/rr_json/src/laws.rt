// Laws of reports in JSON, contracts of functions that do nothing.
ghost use Rattle.rr_json.specs.Laws.{RefusalIsRead, ReportIsRead};

/// The text of a report is UTF-8, and is read back as the report (RFC 8259).
pub fn report_is_read()
    ensures { ReportIsRead }
{}

/// The text of the report of a refused file is UTF-8, and is read back as that report.
pub fn refusal_is_read()
    ensures { RefusalIsRead }
{}
