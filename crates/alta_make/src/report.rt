// The lines of the report.
ghost use Rattle.std.specs.Prelude.{◌≡◌, slice_get};
ghost use Rattle.std.specs.Option.{option_copied};
ghost use Rattle.alta_make.specs.Script.{report};

/// Line `index`, from 0, of the lines that ask for a report on the run. None exactly past the last.
pub fn report_line(index: u64) -> Option<&'static str>
    ensures { option_copied result ≡ slice_get report index }
{
    match index {
        0 => Some("stats"),
        1 => Some("count even"),
        2 => Some("count \"w7 odd\""),
        3 => Some("count w3 NOT even"),
        4 => Some("count title:item w42"),
        5 => Some("count w2 NEAR/1 even"),
        6 => Some("search name:d1999"),
        _ => None,
    }
}
