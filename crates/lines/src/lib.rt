// The text of an answer, in lines of decimal fields that are parted by commas.
#![tactic(auto)]

mod text;

ghost use Rattle.std.specs.Prelude.{◌≡◌, ◌≤◌, min, length};
ghost use Rattle.lines.specs.Text.{refused_line, text_of};
ghost use Rattle.lines.specs.Written.{filled};

use answer::Answer;
use error::Code;
use text::Text;

// The answer's text from the start of out on, cut where out ends, and how many bytes of it out then holds: all, if out has 8618.
// Ruled out: a line for a record that is not in use; a byte changed behind the text.
pub fn write(answer: Answer, out: &mut [u8]) -> usize
    ensures { (result ≡ min (length (text_of answer)) (length out.old)) × (out.new ≡ filled out.old (text_of answer)) × (length (text_of answer) ≤ 8618) }
{
    let figures = match answer.outcome {
        Ok(figures) => figures,
        Err(refusal) => return write_refused(refusal.code(), out),
    };
    let mut text = Text { out, at: 0 };
    text.report_line(answer.report);
    text.violation_lines(answer.report);
    text.chain_lines(figures);
    text.at
}

// The line of a refusal by any number and place, also one that no `Refusal` has, from the start of out on, cut where out ends, and
// how many bytes of it out then holds: all, if out has 50.
// Ruled out: no line for a number past those of the refusals; a byte changed behind the line.
pub fn write_refused(code: Code, out: &mut [u8]) -> usize
    ensures { (result ≡ min (length (refused_line code)) (length out.old)) × (out.new ≡ filled out.old (refused_line code)) × (length (refused_line code) ≤ 50) }
{
    let mut text = Text { out, at: 0 };
    text.refused_line(code);
    text.at
}
