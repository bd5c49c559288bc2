// The lines of the generated run by their index.
// A hundred documents bring 102 lines, so a line is known without those before it. The definition is the list of all lines, document
// by document.
ghost use Rattle.std.specs.Prelude.{◌≡◌, ◌∷◌, ◌++◌, [], codes, slice_get, IfOk};
ghost use Rattle.std.specs.Option.{option_map};
ghost use Rattle.alta_make.specs.Script.{adds, deletes, script};
ghost use Rattle.alta_make.specs.Text.{text_of};

use crate::line::{Line, text};
use alta_codec::Text;
use std::alloc::{AllocError, Global};

/// Line `index`, from 0, of the lines of a run over `n` documents: each document is added, and behind each hundredth of
/// them come a flush and a step of 50 terms; then each fifth is deleted, and all is merged. None exactly past the last.
/// Fails for want of memory alone.
pub fn script_line(alloc: Global, n: u64, index: u64) -> Result<Option<Text>, AllocError>
    ensures { IfOk result (λ line. line ≡ slice_get (script n) index) }
{
    match line_at(n, index) {
        Some(line) => Ok(Some(text(alloc, line)?)),
        None => Ok(None),
    }
}

/// What line `index` asks for.
fn line_at(n: u64, index: u64) -> Option<Line>
    ensures { option_map text_of result ≡ slice_get (script n) index }
{
    match adding(n, index) {
        Some(line) => Some(line),
        None => closing(n, index - n - 2 * (n / 100)),
    }
}

/// What line `index` asks for, of those that `n` documents bring. A hundred documents bring 102 lines.
fn adding(n: u64, index: u64) -> Option<Line>
    ensures { option_map text_of result ≡ slice_get (adds n) index }
{
    let hundreds = index / 102;
    let at = index % 102;
    if at < 100 {
        let document = 100 * hundreds + at + 1;
        if document <= n {
            Some(Line::Add(document))
        } else {
            None
        }
    } else if 100 * (hundreds + 1) > n {
        None
    } else if at == 100 {
        Some(Line::Flush)
    } else {
        Some(Line::Step)
    }
}

/// What line `index` asks for, of those behind them.
fn closing(n: u64, index: u64) -> Option<Line>
    ensures { option_map text_of result ≡ slice_get (deletes n ++ codes "merge" ∷ []) index }
{
    let deleted = n / 5;
    if index < deleted {
        Some(Line::Delete(5 * (index + 1)))
    } else if index == deleted {
        Some(Line::Merge)
    } else {
        None
    }
}
