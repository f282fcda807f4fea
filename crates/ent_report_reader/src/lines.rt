//! Lines in front of a text.
ghost use Rattle.std.specs.Prelude.{◌≡◌, ℕ, IfNone, IfSome, List};
ghost use Rattle.ent_book.specs.Report2.{line_count};
ghost use Rattle.ent_report_reader.specs.Lines.{AreFrontLines, IsFirstLine};

/// The first line without its LF, and what stands behind it. None where no line is ended.
pub(crate) fn first_line(text: &str) -> Option<(&str, &str)>
    ensures some { IfSome result (λ x. IsFirstLine text.now x.0.now x.1.now) }
    ensures none { IfNone result (line_count text.now ≡ 0) }
{
    text.split_once('\n')
}

/// What stands behind the lines in front, at most so many of them.
fn behind_lines(text: &str, most: u64) -> &str
    ensures { (front : List ℕ) × AreFrontLines text.now most front result.now }
{
    let mut rest = text;
    let mut left = most;
    while left > 0 {
        match first_line(rest) {
            Some((_line, behind)) => {
                rest = behind;
                left -= 1;
            }
            None => return rest,
        }
    }
    rest
}

/// The lines in front, at most so many, each with its LF, and what stands behind them.
pub(crate) fn front_lines(text: &str, most: u64) -> (&str, &str)
    ensures { AreFrontLines text.now most result.0.now result.1.now }
{
    let behind = behind_lines(text, most).as_bytes();
    text.split_at(text.len() - behind.len())
}
